ghost use Rattle.std.specs.Prelude.{◌≡◌, take, drop};

// The first n bytes, or all where there are fewer.
pub(crate) fn front(text: &[u8], n: usize) -> &[u8]
    ensures { result.now ≡ take n text.now }
{
    &text[..n.min(text.len())]
}

// What follows the first n bytes.
pub(crate) fn after(text: &[u8], n: usize) -> &[u8]
    ensures { result.now ≡ drop n text.now }
{
    text.get(n..).unwrap_or(&[])
}
