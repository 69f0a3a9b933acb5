//! Lists of a fixed room, one made the same as another.

ghost use Rattle.std.specs.Prelude.{◌≡◌, ◌≤◌, length};

use arrayvec::ArrayVec;

/// Copies the items in place of those that are there, in the time that both take and not that of
/// the room.
pub fn copy_into<T: Copy + Default, const N: usize>(place: &mut ArrayVec<T, N>, items: &[T])
    requires { length items.now ≤ N }
    ensures { place.new.items ≡ items.now }
{
    if place.len() == items.len() {
        place.as_mut_slice().copy_from_slice(items);
        return;
    }
    place.clear();
    place.try_extend_from_slice(items).unwrap();
}

/// A list with the same items.
pub fn copied<T: Copy + Default, const N: usize>(list: &ArrayVec<T, N>) -> ArrayVec<T, N>
    ensures { result.items ≡ list.now.items }
{
    let mut copy = ArrayVec::new();
    copy_into(&mut copy, list);
    copy
}
