//! Writing the text of a plan. A function that writes puts its text at the front of a buffer with room for it, and answers how
//! many bytes that is.
ghost use Rattle.std.specs.Prelude.{◌≡◌, ◌<◌, ◌≤◌, map, length, drop, Decides};
ghost use Rattle.std.specs.Slice.Iter.{iter_rest};
ghost use Rattle.grammar.specs.Written.{correction_text, bay_text, marks_text, leaf_text, sign_of, link_sign, written};
ghost use Rattle.plan.specs.Writes.{Laid, Numbered, AllNumbered, StandsTwice, FirstTwice};
ghost use Rattle.meaning.specs.Shape.{leaves as leaf_count};
ghost use Rattle.layout.specs.Tree.{shape_of, sort_of, link_of};

use grammar::{Leaf, Marks};
use itoa::Buffer;
use layout::{Link, Sort, Tree};
use std::slice::Iter;
use text::{Kind, find, write_number};

fn write_correction(correction: i16, buffer: &mut [u8]) -> usize
    requires { length (correction_text correction) ≤ length buffer.old }
    ensures { Laid 0 (correction_text correction) buffer.old buffer.new result }
{
    if correction == 0 {
        return 0;
    }
    let mut digits = Buffer::new();
    let text = digits.format(correction).as_bytes();
    let end = 1 + text.len();
    buffer[0] = b':';
    buffer[1..end].copy_from_slice(text);
    end
}

fn write_bay(bay: Option<u8>, buffer: &mut [u8]) -> usize
    requires { length (bay_text bay) ≤ length buffer.old }
    ensures { Laid 0 (bay_text bay) buffer.old buffer.new result }
{
    let Some(number) = bay else {
        return 0;
    };
    buffer[0] = b'@';
    1 + write_number(u32::from(number), &mut buffer[1..]).unwrap()
}

fn write_marks(marks: Marks, buffer: &mut [u8]) -> usize
    requires { length (marks_text marks) ≤ length buffer.old }
    ensures { Laid 0 (marks_text marks) buffer.old buffer.new result }
{
    let at = write_correction(marks.correction, buffer);
    at + write_bay(marks.bay, &mut buffer[at..])
}

// kept: each writes at the front of its own part of the buffer, so no struct holds the two together
// A name with its marks, or `_`.
fn write_leaf<K: Kind>(leaf: Leaf, names: &[K], buffer: &mut [u8]) -> usize
    requires named { Numbered (length names.now) leaf.name }
    requires room { length (leaf_text (map K.text names.now) leaf) ≤ length buffer.old }
    ensures { Laid 0 (leaf_text (map K.text names.now) leaf) buffer.old buffer.new result }
{
    let Some(number) = leaf.name else {
        buffer[0] = b'_';
        return 1;
    };
    let at = names[number as usize].write(buffer).unwrap();
    at + write_marks(leaf.marks, &mut buffer[at..])
}

/// How many bytes the text of a leaf has.
pub fn leaf_length<K: Kind>(leaf: Leaf, names: &[K]) -> usize
    requires { Numbered (length names.now) leaf.name }
    ensures count { result ≡ length (leaf_text (map K.text names.now) leaf) }
    ensures small { result ≤ 23 }
{
    write_leaf(leaf, names, &mut [0; 23])
}

// kept: the signs are defined in `grammar`, which `layout`, where `Sort` stands, does not know
fn bracket_sign(sort: Sort) -> u8
    ensures { result ≡ sign_of (sort_of sort) }
{
    match sort {
        Sort::Lock => b'!',
        Sort::Choice => b'+',
        Sort::Interleave => b'|',
    }
}

// kept: the signs are defined in `grammar`, which `layout`, where `Link` stands, does not know
fn separator(link: Link) -> u8
    ensures { result ≡ link_sign (link_of link) }
{
    match link {
        Link::Then => b'.',
        Link::Or | Link::Beside => b',',
    }
}

/// Writes the text of a tree, whose leaves are the next of the iterator's.
pub fn write_tree<K: Kind>(
    tree: &Tree,
    leaves: &mut Iter<'_, Leaf>,
    names: &[K],
    buffer: &mut [u8],
) -> usize
    requires enough { leaf_count (shape_of tree.now) ≤ length (iter_rest leaves.old) }
    requires named { AllNumbered (length names.now) (iter_rest leaves.old) }
    requires room { length (written (shape_of tree.now) (iter_rest leaves.old) (map K.text names.now)) ≤ length buffer.old }
    ensures rest { iter_rest leaves.new ≡ drop (leaf_count (shape_of tree.now)) (iter_rest leaves.old) }
    ensures laid { Laid 0 (written (shape_of tree.now) (iter_rest leaves.old) (map K.text names.now)) buffer.old buffer.new result }
{
    match tree {
        Tree::Leaf(_) => write_leaf(*leaves.next().unwrap(), names, buffer),
        Tree::Bracket(sort, e) => {
            buffer[0] = bracket_sign(*sort);
            buffer[1] = b'(';
            let end = 2 + write_tree(e, leaves, names, &mut buffer[2..]);
            buffer[end] = b')';
            end + 1
        }
        Tree::Join(link, e, f) => {
            let end = write_tree(e, leaves, names, buffer);
            buffer[end] = separator(*link);
            let next = end + 1;
            next + write_tree(f, leaves, names, &mut buffer[next..])
        }
    }
}

// Whether the name of a number stands earlier among the names.
fn stands_twice<K: Kind>(names: &[K], n: usize) -> bool
    requires { n < length names.now }
    ensures { Decides result (StandsTwice (map K.text names.now) n) }
{
    find(&names[..n], &names[n]).is_some()
}

/// The smallest number below `count` whose name stands earlier among the names.
pub fn first_twice<K: Kind>(names: &[K], count: usize) -> Option<usize>
    requires { count ≤ length names.now }
    ensures { FirstTwice (map K.text names.now) count result }
{
    (0..count).find(|&n| stands_twice(names, n))
}
