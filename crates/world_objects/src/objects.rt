//! All replicas and all global values.

ghost use Rattle.std.specs.Prelude.{◌≡◌, ◌≤◌, [], None, Some, All, IfOk, IfSome, IsSome, OnErr, OnOk, fold, length, map, option_map, replicate, slice_get};
ghost use Rattle.std.specs.Option.{ForSome};
ghost use Rattle.faaslet_meaning.specs.declared.grant.Channel.TheVariants.{Global as OnGlobal, Local as OnLocal};
ghost use Rattle.faaslet_meaning.specs.Asks.{reply_of, RepliesAs};
ghost use Rattle.faaslet_meaning.specs.Channels.{entries};
ghost use Rattle.faaslet_meaning.specs.Region.{blocker, reply};
ghost use Rattle.session_meaning.specs.Events.{held};
ghost use Rattle.shared_region.specs.Moves.{global_part, local_part, move_blocker, moved, MoveFits};
ghost use Rattle.state_locks.specs.Locks.{kind_of};
ghost use Rattle.world_objects.specs.Asked.{asked_kind, Fits, moved_length, operation};
ghost use Rattle.world_objects.specs.Kept.{applied};
ghost use Rattle.world_objects.specs.Served.{
  AreThere,
  IsWithin,
  both_changed,
  changed_at,
  entered_at,
  global_start,
  kinds_so,
  local_start,
  lock_at,
  locks_at,
  move_kinds,
  object_at,
  question_at,
  reply_at,
  started,
};

use crate::object::Object;
use crate::row::Row;
use faaslet_meaning::{Ask, AskOp, Channel, Move, Reply};
use session_meaning::Mark;
use state_locks::LockKind;
use std::alloc::{AllocError, Global};
use std::marker::Model;

/// The size of a key, and the bytes at the front of its global value.
#[derive(Clone, Copy)]
pub struct KeyStart<'k> {
    pub size: u32,
    pub init: &'k [u8],
}

/// The least other holder of a lock that keeps a call from its question, and where it holds it.
#[derive(Clone, Copy, Debug, PartialEq, Eq)]
pub struct Held {
    pub channel: Channel,
    pub holder: u32,
}

/// The replicas of each host, and the global values, each with its trail.
#[derive(Drop)]
pub struct Objects {
    locals: Vec<Row>,
    globals: Row,
}

impl Model for Objects {
    ghost use Rattle.world_objects.specs.Kept.{Objects as Kept};
    ghost use Rattle.world_objects.specs.Served.{SameSizes};

    ghost Value = { Kept };

    ghost view = { λ o. record { locals = o.locals.items; globals = o.globals } };

    ghost invariant = { λ o. SameSizes (record { locals = o.locals.items; globals = o.globals }) };
}

impl Objects {
    /// Those of a world before any event.
    pub fn new(alloc: Global, hosts: u32, keys: &[KeyStart<'_>]) -> Result<Objects, AllocError>
        requires { All (λ k. length k.init.now ≤ k.size) keys.now }
        ensures { IfOk result (λ o. o ≡ started hosts keys.now) }
    {
        let mut locals = Vec::new(alloc);
        'hosts: for _host in 0..hosts {
            locals.push(replicas(alloc, keys)?)?;
        }
        Ok(Objects {
            locals,
            globals: global_values(alloc, keys)?,
        })
    }

    fn at(&self, host: u32, channel: Channel) -> &Object
        requires { IsSome (object_at self.now host channel) }
        ensures { object_at self.now host channel ≡ Some result.now }
    {
        match channel {
            Channel::Local(key) => self.locals[host as usize].at(key),
            Channel::Global(key) => self.globals.at(key),
            Channel::Table => unreachable!(),
        }
    }

    /// The history of a replica or of a global value without bytes.
    pub fn trail(&self, host: u32, channel: Channel) -> &[Mark]
        requires { IsSome (object_at self.now host channel) }
        ensures { IfSome (object_at self.now host channel) (λ o. result.now ≡ o.trail) }
    {
        self.at(host, channel).trail()
    }

    /// The whole global value of a key.
    pub fn value(&self, key: u32) -> &[u8]
        requires { IsSome (slice_get self.now.globals key) }
        ensures { IfSome (slice_get self.now.globals key) (λ o. result.now ≡ o.region.bytes) }
    {
        self.at(0, Channel::Global(key)).bytes()
    }

    /// The lock that keeps a call, which was taken at a host, from an operation on a region or from a move.
    pub fn held(&self, call: u32, host: u32, ask: &Ask) -> Option<Held>
        requires { AreThere self.now host ask.now }
        ensures { (scratch : _) → IfSome (question_at self.now ask.now scratch) (λ q.
            option_map (λ h. held h.channel h.holder) result ≡ locks_at self.now call host q) }
    {
        match *ask {
            Ask::Region { channel, op } => {
                let holder = self.at(host, channel).holder(call, op)?;
                Some(Held { channel, holder })
            }
            Ask::Move { key, kind } => {
                let (local, global) = kinds_of(kind);
                let first = self.held_on(call, host, Channel::Local(key), local);
                if first.is_some() {
                    return first;
                }
                self.held_on(call, host, Channel::Global(key), global)
            }
            _ => None,
        }
    }

    fn held_on(&self, call: u32, host: u32, channel: Channel, kind: LockKind) -> Option<Held>
        requires { IsSome (object_at self.now host channel) }
        ensures { option_map (λ h. held h.channel h.holder) result
            ≡ lock_at self.now call host channel (kind_of kind) }
    {
        let holder = self.at(host, channel).blocked_by(call, kind)?;
        Some(Held { channel, holder })
    }

    /// Serves an operation on a region or a move that no lock keeps from its call: what it does stands in the
    /// trails. What it carries is the front of the scratch, and bytes that are read come there.
    pub fn serve(
        &mut self,
        call: u32,
        host: u32,
        ask: &Ask,
        scratch: &mut [u8],
    ) -> Result<Reply, AllocError>
        requires asked { IsSome (question_at self.old ask.now scratch.old) }
        requires there { AreThere self.old host ask.now }
        requires within { IsWithin self.old host ask.now (length scratch.old) }
        requires free { ForSome (question_at self.old ask.now scratch.old) (λ q. locks_at self.old call host q ≡ None) }
        ensures after { IfSome (question_at self.old ask.now scratch.old) (λ q. OnOk result (self.new
            ≡ fold (entered_at call host) self.old (entries q (reply_at self.old call host q)))) }
        ensures reply { IfSome (question_at self.old ask.now scratch.old) (λ q. IfOk result (λ answer.
            RepliesAs q answer scratch.new (reply_at self.old call host q))) }
        ensures want { OnErr result ((self.new ≡ self.old) × (scratch.new ≡ scratch.old)) }
    {
        match *ask {
            Ask::Region { channel, op } => self.apply(call, host, channel, op, scratch),
            Ask::Move { key, kind } => {
                self.move_between(call, host, key, kind)?;
                Ok(Reply::Done)
            }
            _ => unreachable!(),
        }
    }

    fn apply(
        &mut self,
        call: u32,
        host: u32,
        channel: Channel,
        op: AskOp,
        scratch: &mut [u8],
    ) -> Result<Reply, AllocError>
        requires there { IsSome (object_at self.old host channel) }
        requires fits { ForSome (object_at self.old host channel) (λ o. Fits o.region op (length scratch.old)) }
        requires free { ForSome (object_at self.old host channel) (λ o. blocker o.region call (asked_kind op) ≡ None) }
        ensures after { OnOk result (self.new ≡ changed_at self.old host channel (applied call (operation op scratch.old))) }
        ensures reply { IfSome (object_at self.old host channel) (λ o. IfOk result (λ answer.
            reply_of answer scratch.new ≡ Some (reply o.region call (operation op scratch.old)))) }
        ensures want { OnErr result ((self.new ≡ self.old) × (scratch.new ≡ scratch.old)) }
    {
        match channel {
            Channel::Local(key) => self.locals[host as usize].apply(key, call, op, scratch),
            Channel::Global(key) => self.globals.apply(key, call, op, scratch),
            Channel::Table => unreachable!(),
        }
    }

    fn move_between(&mut self, call: u32, host: u32, key: u32, kind: Move) -> Result<(), AllocError>
        requires local { IsSome (object_at self.old host (OnLocal key)) }
        requires global { IsSome (object_at self.old host (OnGlobal key)) }
        requires fits { ForSome (object_at self.old host (OnLocal key)) (λ l. MoveFits kind l.region.size) }
        requires free { ForSome (object_at self.old host (OnLocal key)) (λ l. ForSome (object_at self.old host (OnGlobal key)) (λ g.
            move_blocker l.region g.region call kind ≡ None)) }
        ensures after { IfSome (object_at self.old host (OnLocal key)) (λ l. IfSome (object_at self.old host (OnGlobal key)) (λ g.
            OnOk result (self.new ≡ both_changed self.old host key
            (applied call (local_part kind (moved l.region g.region kind)))
            (applied call (global_part kind g.region.size (moved l.region g.region kind)))))) }
        ensures long { IfSome (object_at self.old host (OnLocal key)) (λ l. IfSome (object_at self.old host (OnGlobal key)) (λ g.
            OnOk result (length (moved l.region g.region kind) ≡ moved_length kind g.region.size))) }
        ensures want { OnErr result (self.new ≡ self.old) }
    {
        Row::move_between(
            &mut self.locals[host as usize],
            &mut self.globals,
            key,
            call,
            kind,
        )
    }
}

/// Which kinds of operation the two of a move are: that on the replica, and that on the global value.
fn kinds_of(kind: Move) -> (LockKind, LockKind)
    ensures { kinds_so result ≡ move_kinds kind }
{
    match kind {
        Move::Fill => (LockKind::Reads, LockKind::Reads),
        Move::Pull { .. } => (LockKind::Writes, LockKind::Reads),
        Move::Push { .. } => (LockKind::Reads, LockKind::Writes),
    }
}

fn replicas(alloc: Global, keys: &[KeyStart<'_>]) -> Result<Row, AllocError>
    ensures { IfOk result (λ row. row ≡ map local_start keys.now) }
{
    let mut row = Row::new(alloc);
    for key in keys {
        row.push(Object::local(alloc, key.size)?)?;
    }
    Ok(row)
}

fn global_values(alloc: Global, keys: &[KeyStart<'_>]) -> Result<Row, AllocError>
    requires { All (λ k. length k.init.now ≤ k.size) keys.now }
    ensures { IfOk result (λ row. row ≡ map global_start keys.now) }
{
    let mut row = Row::new(alloc);
    for key in keys {
        row.push(Object::global(alloc, key.size, key.init)?)?;
    }
    Ok(row)
}
