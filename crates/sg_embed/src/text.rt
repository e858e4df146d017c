// Texts as C takes them: cut to a buffer, with a zero after the text.
ghost use Rattle.std.specs.Prelude.{◌≡◌, length};
ghost use Rattle.sg_embed.specs.Text.{text_in, version_text};

const VERSION: &[u8] = b"mehdalung 1.0.0, proved in Rattle's logic dac8208d650f15bf";

/// Writes the library's version and the logic that it is proved in, the last word that `rt version`
/// prints, as [`copy_text`] writes a text.
pub fn copy_version(out: &mut [u8]) -> usize
    ensures length { result ≡ length version_text }
    ensures text { out.new ≡ text_in version_text out.old }
{
    copy_text(VERSION, out)
}

/// Writes a text to the beginning of a buffer, cut to the buffer, and a zero after the text.
/// Returns the length of the whole text without the zero, as snprintf(3) does.
pub fn copy_text(text: &[u8], out: &mut [u8]) -> usize
    ensures length { result ≡ length text.now }
    ensures text { out.new ≡ text_in text.now out.old }
{
    if !out.is_empty() {
        let count = text.len().min(out.len() - 1);
        out[..count].copy_from_slice(&text[..count]);
        out[count] = 0;
    }
    text.len()
}
