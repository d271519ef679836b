/// What a leaf's text says behind its name: a correction in kilograms (0 where none is written), and a bay. The default is
/// what no text says: no correction and no bay.
#[derive(Clone, Copy, Debug, PartialEq, Eq, Default)]
pub struct Marks {
    pub correction: i16,
    pub bay: Option<u8>,
}

/// A leaf: the number of its name in the plan's directory, or `None` for `_`; and its marks. The default is `_` with no marks.
#[derive(Clone, Copy, Debug, PartialEq, Eq, Default)]
pub struct Leaf {
    pub name: Option<u8>,
    pub marks: Marks,
}
