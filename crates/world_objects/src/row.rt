//! The objects of all keys in their order: the replicas of one host, or the global values.

ghost use Rattle.std.specs.Prelude.{◌≡◌, ◌<◌, ◌++◌, ◌∷◌, [], None, Some, IfOk, IfSome, IsSome, OnErr, OnOk, length, slice_get};
ghost use Rattle.std.specs.Option.{ForSome};
ghost use Rattle.faaslet_meaning.specs.Asks.{reply_of};
ghost use Rattle.faaslet_meaning.specs.Lists.{changed};
ghost use Rattle.faaslet_meaning.specs.Region.{blocker, reply};
ghost use Rattle.shared_region.specs.Moves.{global_part, local_part, move_blocker, moved, MoveFits};
ghost use Rattle.shared_region.specs.Operations.{laid};
ghost use Rattle.world_objects.specs.Asked.{asked_kind, Fits, moved_length, operation};
ghost use Rattle.world_objects.specs.Kept.{applied, sizes};

use crate::object::Object;
use faaslet_meaning::{AskOp, Move, Reply};
use std::alloc::{AllocError, Global};
use std::marker::Model;

#[derive(Drop)]
pub(crate) struct Row {
    objects: Vec<Object>,
}

impl Model for Row {
    ghost use Rattle.std.specs.Prelude.{List};
    ghost use Rattle.world_objects.specs.Kept.{Kept};

    ghost Value = { List Kept };

    ghost view = { λ r. r.objects.items };
}

impl Row {
    pub(crate) fn new(alloc: Global) -> Row
        ensures { result ≡ [] }
    {
        Row {
            objects: Vec::new(alloc),
        }
    }

    pub(crate) fn push(&mut self, object: Object) -> Result<(), AllocError>
        ensures { OnOk result (self.new ≡ self.old ++ object ∷ []) }
    {
        self.objects.push(object)?;
        Ok(())
    }

    pub(crate) fn at(&self, key: u32) -> &Object
        requires { key < length self.now }
        ensures { slice_get self.now key ≡ Some result.now }
    {
        &self.objects[key as usize]
    }

    /// An operation that nobody blocks, on the object of a key.
    pub(crate) fn apply(
        &mut self,
        key: u32,
        maker: u32,
        op: AskOp,
        scratch: &mut [u8],
    ) -> Result<Reply, AllocError>
        requires there { IsSome (slice_get self.old key) }
        requires fits { ForSome (slice_get self.old key) (λ o. Fits o.region op (length scratch.old)) }
        requires free { ForSome (slice_get self.old key) (λ o. blocker o.region maker (asked_kind op) ≡ None) }
        ensures after { OnOk result (self.new ≡ changed self.old key (applied maker (operation op scratch.old))) }
        ensures reply { IfSome (slice_get self.old key) (λ o. IfOk result (λ answer.
            reply_of answer scratch.new ≡ Some (reply o.region maker (operation op scratch.old)))) }
        ensures scratch { IfSome (slice_get self.old key) (λ o. OnOk result (scratch.new
            ≡ laid (reply o.region maker (operation op scratch.old)) scratch.old)) }
        ensures want { OnErr result ((self.new ≡ self.old) × (scratch.new ≡ scratch.old)) }
        ensures sizes { sizes self.new ≡ sizes self.old }
    {
        self.objects[key as usize].apply(maker, op, scratch)
    }

    /// Both operations of a move that nobody blocks, on the two objects of a key.
    pub(crate) fn move_between(
        locals: &mut Row,
        globals: &mut Row,
        key: u32,
        maker: u32,
        kind: Move,
    ) -> Result<(), AllocError>
        requires local { IsSome (slice_get locals.old key) }
        requires global { IsSome (slice_get globals.old key) }
        requires one_size { ForSome (slice_get locals.old key) (λ l. ForSome (slice_get globals.old key) (λ g.
            l.region.size ≡ g.region.size)) }
        requires fits { ForSome (slice_get locals.old key) (λ l. MoveFits kind l.region.size) }
        requires free { ForSome (slice_get locals.old key) (λ l. ForSome (slice_get globals.old key) (λ g.
            move_blocker l.region g.region maker kind ≡ None)) }
        ensures local { IfSome (slice_get locals.old key) (λ l. IfSome (slice_get globals.old key) (λ g.
            OnOk result (locals.new
            ≡ changed locals.old key (applied maker (local_part kind (moved l.region g.region kind)))))) }
        ensures global { IfSome (slice_get locals.old key) (λ l. IfSome (slice_get globals.old key) (λ g.
            OnOk result (globals.new ≡ changed globals.old key
            (applied maker (global_part kind g.region.size (moved l.region g.region kind)))))) }
        ensures want { OnErr result ((locals.new ≡ locals.old) × (globals.new ≡ globals.old)) }
        ensures long { IfSome (slice_get locals.old key) (λ l. IfSome (slice_get globals.old key) (λ g.
            OnOk result (length (moved l.region g.region kind) ≡ moved_length kind g.region.size))) }
        ensures local_sizes { sizes locals.new ≡ sizes locals.old }
        ensures global_sizes { sizes globals.new ≡ sizes globals.old }
    {
        let local = &mut locals.objects[key as usize];
        let global = &mut globals.objects[key as usize];
        Object::move_between(local, global, maker, kind)
    }
}
