//! The rooms of the steps, in units of 1,000 cubic metres: word 2 * a has that of the step forward over the arc a, and
//! word 2 * a + 1 that of the step back over it.
ghost use Rattle.std.specs.Prelude.{◌≡◌, ◌^◌, ◌+◌, ◌*◌, ◌<◌, ◌≤◌, ℕ, length, replicate, slice_index};
ghost use Rattle.circulation.specs.Contents.{on_last};
ghost use Rattle.circulation.specs.Residual.{opposite};
ghost use Rattle.circulation.specs.Rooms.{AreRooms, IsRoomMoved};

/// Writes the rooms over arcs with these upper bounds, on which there is no flow and nothing is held.
fn write_empty_rooms(rooms: &mut [u64], upper: &[u64])
    requires { length rooms.old ≡ 2 * length upper.now }
    ensures { AreRooms (replicate (length upper.now) 0) upper.now (replicate (length upper.now) 0) rooms.new }
{
    for arc in 0..upper.len() {
        rooms[2 * arc] = upper[arc];
        rooms[2 * arc + 1] = 0;
    }
}

/// Writes the rooms over arcs with these upper bounds and this flow, on which nothing is held.
pub fn write_rooms(rooms: &mut [u64], upper: &[u64], flow: &[u64])
    requires size { length rooms.old ≡ 2 * length upper.now }
    requires flows { length flow.now ≡ length upper.now }
    requires within { (a : ℕ) → a < length upper.now → slice_index flow.now a ≤ slice_index upper.now a }
    ensures { AreRooms (replicate (length upper.now) 0) upper.now flow.now rooms.new }
{
    for arc in 0..upper.len() {
        rooms[2 * arc] = upper[arc] - flow[arc];
        rooms[2 * arc + 1] = flow[arc];
    }
}

/// Writes the rooms over arcs with these upper bounds, on which nothing is held. Only on the last ones there is a flow.
pub fn write_last_rooms(rooms: &mut [u64], upper: &[u64], flow: &[u64])
    requires size { length rooms.old ≡ 2 * length upper.now }
    requires flows { length flow.now ≤ length upper.now }
    requires within { (a : ℕ) → a < length upper.now →
        slice_index (on_last (length upper.now) flow.now) a ≤ slice_index upper.now a }
    ensures { AreRooms (replicate (length upper.now) 0) upper.now (on_last (length upper.now) flow.now) rooms.new }
{
    let empty = upper.len() - flow.len();
    let (first_rooms, last_rooms) = rooms.split_at_mut(2 * empty);
    let (first, last) = upper.split_at(empty);
    write_empty_rooms(first_rooms, first);
    write_rooms(last_rooms, last, flow);
}

/// Moves an amount from the room of a step to that of the step over the same arc the other way.
pub fn move_room(rooms: &mut [u64], step: usize, amount: u64)
    requires step { step < length rooms.old }
    requires other { opposite step < length rooms.old }
    requires room { amount ≤ slice_index rooms.old step }
    requires fits { slice_index rooms.old (opposite step) + amount < 2 ^ 64 }
    ensures { IsRoomMoved rooms.old rooms.new step amount }
{
    rooms[step] -= amount;
    rooms[step ^ 1] += amount;
}
