//! Standard streams that fail, and what is typed at a terminal.
ghost use Rattle.std.specs.Prelude.{◌≡◌, OnOk};
ghost use Rattle.std.specs.Io.KnownBytes.{Appends};
ghost use Rattle.nl_script.specs.StreamTexts.{notice_text, stream_text};

use std::io;
use std::io::Write;

/// A standard stream, whose failure is told.
#[derive(Clone, Copy)]
pub enum StandardStream {
    Input,
    Output,
}

fn failure(stream: StandardStream) -> &'static [u8]
    ensures { result.now ≡ stream_text stream }
{
    match stream {
        StandardStream::Input => b"standard input: cannot be read\n",
        StandardStream::Output => b"standard output: cannot be written\n",
    }
}

/// Writes that a standard stream failed.
pub fn stream_text<W: Write>(stream: StandardStream, out: &mut W) -> io::Result<()>
    ensures { OnOk result (Appends (W.contents out.old) (W.contents out.new)
        (stream_text stream)) }
{
    out.write_all(failure(stream))
}

/// Writes that a file is saved at the end of input, and which key of a terminal ends it.
pub fn notice_text<W: Write>(path: &[u8], out: &mut W) -> io::Result<()>
    ensures { OnOk result (Appends (W.contents out.old) (W.contents out.new)
        (notice_text path.now)) }
{
    out.write_all(path)?;
    out.write_all(b": is saved at the end of input (Ctrl-D)\n")
}
