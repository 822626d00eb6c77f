// Bytes that are changed, one at a time.
use anyhow::Result;

// Asks about the bytes with each of them changed by each of these bits in turn, and leaves them as they were.
pub(crate) fn each_changed<F: FnMut(&[u8]) -> Result<()>>(
    bytes: &mut [u8],
    by: &[u8],
    mut ask: F,
) -> Result<()>
    requires { F.IsAlwaysCallable ask }
{
    for at in 0..bytes.len() {
        for bits in by {
            bytes[at] ^= *bits;
            ask(bytes)?;
            bytes[at] ^= *bits;
        }
    }
    Ok(())
}
