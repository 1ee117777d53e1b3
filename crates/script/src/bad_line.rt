// Why a text is no script: the number of its first bad line, or 0 where the text is too long to be read.
#[derive(Clone, Copy)]
pub struct BadLine {
    pub line: u32,
}
