ghost use Rattle.text.specs.Bytes.{Writes};

/// Writes a text at the front of a buffer and answers how long it is; nothing is written where the buffer is shorter than that.
pub fn write_front(text: &[u8], buffer: &mut [u8]) -> Option<usize>
    ensures { Writes text.now buffer.old buffer.new result }
{
    if buffer.len() < text.len() {
        return None;
    }
    buffer[..text.len()].copy_from_slice(text);
    Some(text.len())
}
