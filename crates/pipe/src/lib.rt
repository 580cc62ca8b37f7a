// A program's input and output, as a pipe of bytes.
#![tactic(auto)]

ghost use Rattle.std.specs.Prelude.{◌≡◌, ◌≤◌, [], length, take, OnOk, IfOk, IfErr};
ghost use Rattle.std.specs.Io.Buffered.{reader_inner, reader_buffer, writer_inner, writer_buffer};
ghost use Rattle.std.specs.Io.KnownBytes.{Appends, Consumes};
ghost use Rattle.std.specs.IoError.{error_kind};

use std::alloc::Global;
use std::io;
use std::io::{BufReader, BufWriter, ErrorKind, Read, Stdin, Stdout, Write};

// Where a program reads, and where it writes.
#[derive(Clone, Copy, Drop)]
pub struct Pipe<R, W> {
    pub input: R,
    pub output: W,
}

// A program's standard streams. No clause can say what a terminal, a file or another program gives or takes: what is proved of the bytes stands below.
pub type StandardPipe = Pipe<BufReader<Stdin>, BufWriter<Stdout>>;

// The standard streams, each behind a buffer that is empty; the error is that of memory.
pub fn standard(alloc: Global, input: Stdin, output: Stdout) -> io::Result<StandardPipe>
    ensures input { IfOk result (λ pipe. (reader_inner pipe.input ≡ input) × (reader_buffer pipe.input ≡ [])) }
    ensures output { IfOk result (λ pipe. (writer_inner pipe.output ≡ output) × (writer_buffer pipe.output ≡ [])) }
    ensures memory { IfErr result (λ e. error_kind e ≡ ErrorKind.OutOfMemory) }
{
    Ok(Pipe {
        input: BufReader::new(alloc, input)?,
        output: BufWriter::new(alloc, output)?,
    })
}

impl<R: Read, W: Write> Pipe<R, W> {
    // Reads until b is full, the input ends or a read fails: how many bytes it put at the start of b, in the reader's order and none left out.
    pub fn read_full(&mut self, b: &mut [u8]) -> usize
        ensures room { result ≤ length b.new }
        ensures bytes { Consumes (R.remaining self.old.input) (R.remaining self.new.input) (take result b.new) }
        ensures output { self.new.output ≡ self.old.output }
    {
        // Kept: std's `read_exact` does not tell how many bytes came before the end, and methods_run goes on with those.
        let mut done = 0;
        while done < b.len() {
            match self.input.read(&mut b[done..]) {
                Ok(0) => break,
                Ok(n) => done += n,
                Err(_) => break,
            }
        }
        done
    }

    // Fills b, in the reader's order and none left out; the error is that the input ends before, or cannot be read.
    pub fn fill(&mut self, b: &mut [u8]) -> io::Result<()>
        ensures bytes { OnOk result (Consumes (R.remaining self.old.input) (R.remaining self.new.input) b.new) }
        ensures output { self.new.output ≡ self.old.output }
    {
        if self.read_full(b) < b.len() {
            return Err(io::Error::from(ErrorKind::UnexpectedEof));
        }
        Ok(())
    }

    // Writes all of b, after what the writer had, and hands it on.
    pub fn write_all(&mut self, b: &[u8]) -> io::Result<()>
        ensures bytes { OnOk result (Appends (W.contents self.old.output) (W.contents self.new.output) b.now) }
        ensures input { self.new.input ≡ self.old.input }
    {
        self.output.write_all(b)?;
        self.output.flush()
    }
}
