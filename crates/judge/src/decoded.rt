// What decoding makes of a received word.
#[derive(Clone, Copy, PartialEq, Eq, Debug)]
pub enum Decoded {
    // the data word, and the pattern that was undone to find it
    Data { word: u64, pattern: u64 },
    // a non-recoverable error: no pattern has the syndrome of the word
    Flag,
}
