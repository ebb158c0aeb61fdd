// A reader or a writer that keeps the last error it met, so that it can be told at the end of a run.
use std::io;
use std::io::{Error, Read, Write};

#[derive(Drop)]
pub struct Kept<T> {
    inner: T,
    error: Option<Error>,
}

impl<T> Kept<T> {
    pub fn new(inner: T) -> Kept<T> {
        Kept { inner, error: None }
    }

    pub fn get_ref(&self) -> &T {
        &self.inner
    }

    pub fn get_mut(&mut self) -> &mut T {
        &mut self.inner
    }

    // The last error that was met, if there was one.
    pub fn error(&self) -> Option<Error> {
        self.error
    }

    // Keeps an error that was met elsewhere.
    pub fn keep(&mut self, error: Error) {
        self.error = Some(error);
    }
}

impl<T: Read> Read for Kept<T> {
    ghost remaining = { λ s. T.remaining s.inner };

    fn read(&mut self, buf: &mut [u8]) -> io::Result<usize> {
        let answer = self.inner.read(buf);
        answer.inspect_err(|e| self.error = Some(*e))
    }
}

impl<T: Write> Write for Kept<T> {
    ghost contents = { λ s. T.contents s.inner };

    fn write(&mut self, buf: &[u8]) -> io::Result<usize> {
        let answer = self.inner.write(buf);
        answer.inspect_err(|e| self.error = Some(*e))
    }

    fn flush(&mut self) -> io::Result<()> {
        let answer = self.inner.flush();
        answer.inspect_err(|e| self.error = Some(*e))
    }
}
