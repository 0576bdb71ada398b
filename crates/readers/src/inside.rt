// The test of the room for a vector.
ghost use Rattle.std.specs.Prelude.{◌≡◌};
ghost use Rattle.sparse.specs.Lent.{lent_vector, vector_room_test};

use sparse::Refusal;

// 14: room for the entries of a vector.
pub fn vector_room_test(entries: usize, idcs: &[u32], values: &[u32]) -> Result<(), Refusal>
    ensures { result ≡ vector_room_test entries (lent_vector idcs.now values.now) }
{
    if idcs.len() < entries {
        return Err(Refusal::Room);
    }
    if values.len() < entries {
        return Err(Refusal::Room);
    }
    Ok(())
}
