//! Lists that are written into a caller's buffers.

ghost use Rattle.std.specs.Prelude.{◌≡◌, length};
ghost use Rattle.zugrenja_c.specs.Numbers.{overwritten};

/// Writes the beginning of a list that fits, and answers how long the list is.
pub(crate) fn overwrite<T: Copy>(list: &[T], buffer: &mut [T]) -> usize
    ensures written { buffer.new ≡ overwritten list.now buffer.old }
    ensures length { result ≡ length list.now }
{
    let fitting = list.len().min(buffer.len());
    buffer[..fitting].copy_from_slice(&list[..fitting]);
    list.len()
}
