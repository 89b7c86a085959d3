// The program over a reader and a writer.
ghost use Rattle.std.specs.Prelude.{IfOk, IfSome, OnOk};
ghost use Rattle.std.specs.Io.KnownBytes.{Appends};
ghost use Rattle.print.specs.Read.{Read as HasRead};
ghost use Rattle.print.specs.Written.{written_of};

use crate::{INPUT, printed_from};
use lines::OUTPUT;
use std::io;
use std::io::{Read, Write};

// Reads until the buffer is full or the input ends, and answers how many bytes stand at the buffer's start.
fn read_full<R: Read>(reader: &mut R, buffer: &mut [u8]) -> io::Result<usize>
    ensures { IfOk result (λ n. IfSome (R.remaining reader.old) (λ input. HasRead buffer.new n input)) }
{
    let mut done = 0;
    while done < buffer.len() {
        let n = reader.read(&mut buffer[done..])?;
        if n == 0 {
            break;
        }
        done += n;
    }
    Ok(done)
}

// Writes what is to be written for all that the reader has left.
pub(crate) fn run<R: Read, W: Write>(reader: &mut R, writer: &mut W) -> io::Result<()>
    ensures { OnOk result (IfSome (R.remaining reader.old) (λ input. Appends (W.contents writer.old) (W.contents writer.new) (written_of input))) }
{
    let mut buffer = [0u8; INPUT];
    let n = read_full(reader, &mut buffer)?;
    let mut out = [0u8; OUTPUT];
    let k = printed_from(&buffer, n, &mut out);
    writer.write_all(&out[..k])
}
