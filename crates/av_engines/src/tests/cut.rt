use std::io;
use std::io::Read;

// A reader over a text that ends a read at each of these places, which rise.
#[derive(Drop)]
pub struct CutReader<'a> {
    text: &'a [u8],
    cuts: &'a [usize],
    at: usize,
}

impl<'a> CutReader<'a> {
    pub fn new(text: &'a [u8], cuts: &'a [usize]) -> CutReader<'a> {
        CutReader { text, cuts, at: 0 }
    }
}

impl<'a> Read for CutReader<'a> {
    fn read(&mut self, buf: &mut [u8]) -> io::Result<usize> {
        let start = self.at.min(self.text.len());
        let cut = self.cuts.iter().copied().find(|cut| *cut > start);
        let end = cut
            .unwrap_or(self.text.len())
            .min(self.text.len())
            .max(start);
        let rest = &self.text[start..end];
        let count = rest.len().min(buf.len());
        buf[..count].copy_from_slice(&rest[..count]);
        self.at = start.saturating_add(count);
        Ok(count)
    }
}
