//! A transfer between the replica and the global value of a key.

ghost use Rattle.std.specs.Prelude.{◌≡◌, ℕ, ◌+◌, List, [], ◌∷◌, IfOk, IfErr, slice_range};
ghost use Rattle.faaslet_meaning.specs.declared.ask.Move.{Move};
ghost use Rattle.faaslet_meaning.specs.declared.grant.Channel.TheVariants.{Local, Global};
ghost use Rattle.faaslet_meaning.specs.Channels.{on_region};
ghost use Rattle.faaslet_meaning.specs.Channels.RegionOperation.{fill};
ghost use Rattle.faaslet_meaning.specs.Region.{after};
ghost use Rattle.faaslet_meaning.specs.Spelling.{spelled};
ghost use Rattle.shared_region.specs.Entries.{MakesShared};
ghost use Rattle.shared_region.specs.Moves.{MoveFits, move_blocker, named_by, local_part, global_part, moved, operations_on, question_of_move};

use crate::region::Region;
use faaslet_meaning::Move;
use state_locks::LockKind;

/// The least other holder of a lock that stands in the way of a move: on the replica, or on the global value.
#[derive(Clone, Copy, PartialEq, Eq)]
pub struct MoveBlocked {
    pub local: bool,
    pub holder: u32,
}

impl Region {
    /// Both operations of a move or neither. The replica is tested first.
    pub fn move_between(
        local: &mut Region,
        global: &mut Region,
        maker: u32,
        kind: Move,
    ) -> Result<(), MoveBlocked>
        requires one_size { local.old.region.size ≡ global.old.region.size }
        requires fits { MoveFits kind local.old.region.size }
        ensures blocked { named_by result ≡ move_blocker local.old.region global.old.region maker kind }
        ensures refused { IfErr result (λ _. (local.new ≡ local.old) × (global.new ≡ global.old)) }
        ensures local { IfOk result (λ _. local.new ≡ record local.old {
          region = after local.old.region maker
              (local_part kind (moved local.old.region global.old.region kind));
        }) }
        ensures global { IfOk result (λ _. global.new ≡ record global.old {
          region = after global.old.region maker
              (global_part kind global.old.region.size (moved local.old.region global.old.region kind));
        }) }
        ensures local_entry { IfOk result (λ _. MakesShared maker
            (spelled (local_part kind (moved local.old.region global.old.region kind))) local.old local.new) }
        ensures global_entry { IfOk result (λ _. MakesShared maker
            (spelled (global_part kind global.old.region.size (moved local.old.region global.old.region kind)))
            global.old global.new) }
    {
        let one_size = local.size() == global.size();
        prove!(one_size);
        let (local_kind, global_kind) = match kind {
            Move::Fill => (LockKind::Reads, LockKind::Reads),
            Move::Pull { .. } => (LockKind::Writes, LockKind::Reads),
            Move::Push { .. } => (LockKind::Reads, LockKind::Writes),
        };
        if let Some(holder) = local.blocked_by(maker, local_kind) {
            return Err(MoveBlocked {
                local: true,
                holder,
            });
        }
        if let Some(holder) = global.blocked_by(maker, global_kind) {
            return Err(MoveBlocked {
                local: false,
                holder,
            });
        }
        match kind {
            Move::Fill => local.fill_from(global),
            Move::Pull { off, len } => local.copy_from(global, off, len),
            Move::Push { off, len } => global.copy_from(local, off, len),
        }
        Ok(())
    }

    // Where it is absent, the value comes to its front.
    fn fill_from(&mut self, global: &Region)
        requires one_size { self.old.region.size ≡ global.now.region.size }
        ensures { (maker : _) → self.new ≡ record self.old {
          region = after self.old.region maker
              (fill (slice_range global.now.region.bytes 0 (0 + global.now.region.size)));
        } }
    {
        if self.present() {
            return;
        }
        self.copy_from(global, 0, global.size());
        self.mark_present();
    }
}

/// The operations of a move are the entries of its question on the two channels of the key, where it is
/// answered by the bytes that are moved. The body is empty: what counts is what it ensures.
pub fn parts_are_entries()
    ensures local { (key size : ℕ) (kind : Move) (bytes : List ℕ)
        → operations_on (Local key) (question_of_move key size kind) bytes ≡ on_region (local_part kind bytes) ∷ [] }
    ensures global { (key size : ℕ) (kind : Move) (bytes : List ℕ)
        → operations_on (Global key) (question_of_move key size kind) bytes
        ≡ on_region (global_part kind size bytes) ∷ [] }
{}
