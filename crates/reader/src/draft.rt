use grammar::Marks;

/// A leaf as it is read: where it begins, where its name ends (`None` for `_`), and its marks.
#[derive(Clone, Copy, Debug, PartialEq, Eq, Default)]
pub struct Draft {
    pub at: usize,
    pub end: Option<usize>,
    pub marks: Marks,
}
