// Bytes written at a place of lent memory, whole or not at all.
ghost use Rattle.std.specs.Prelude.{◌≡◌};
ghost use Rattle.text.specs.Place.{put_answer, put_bytes};

// The bytes of src, from `at` on. The answer is the place after them, or None: no room, and nothing written.
#[tactic(auto, unfolding(crate::specs::Place::put_answer, crate::specs::Place::put_bytes))]
pub fn put_bytes(out: &mut [u8], at: usize, src: &[u8]) -> Option<usize>
    ensures answer { result ≡ put_answer out.old at src.now }
    ensures memory { out.new ≡ put_bytes out.old at src.now }
{
    let end = at.checked_add(src.len())?;
    if out.len() < end {
        return None;
    }
    out[at..end].copy_from_slice(src);
    Some(end)
}
