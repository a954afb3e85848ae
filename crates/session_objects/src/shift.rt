//! Elements are moved from the end of one list to the end of another.
ghost use Rattle.std.specs.Prelude.{◌≡◌, ◌+◌, ◌≤◌, length};
ghost use Rattle.std.specs.Vec.{vec_capacity};
ghost use Rattle.session_objects.specs.Lists.{Moves};

// All from a place on, the last first.
pub(crate) fn shift<T>(from: &mut Vec<T>, to: &mut Vec<T>, keep: usize)
    requires there { keep ≤ length from.old.items }
    requires room { length to.old.items + length from.old.items ≤ vec_capacity to.old + keep }
    ensures moves { Moves keep from.old.items from.new.items to.old.items to.new.items }
    ensures from { vec_capacity from.new ≡ vec_capacity from.old }
    ensures to { vec_capacity to.new ≡ vec_capacity to.old }
{
    while from.len() > keep {
        let Some(last) = from.pop() else {
            unreachable!()
        };
        to.push_reserved(last);
    }
}
