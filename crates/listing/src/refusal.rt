use lines::TooLong;

// Why a buffer gets no text: the text is longer than the buffer, or memory is wanting.
#[derive(Clone, Copy, PartialEq, Eq, Debug)]
pub enum TextRefusal {
    TooLong(TooLong),
    NoMemory,
}
