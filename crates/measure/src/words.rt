// The words of the command line.
use crate::ranges::Shape;

/// What is to be measured.
#[derive(Clone, Copy)]
pub enum Work<'a> {
    /// The rows of the line programs of this file, which holds the bytes of a .debug_line section.
    Lines(&'a str),
    /// So many steps between rows.
    Steps(u64),
    /// The least pairs of so many line programs.
    Pairs(u32),
    /// The layout of a unit of so many slots.
    Layout(u32),
    /// So many values of attributes.
    Values(u64),
    /// The columns of a table with so many values.
    Columns(u64),
    /// The entries of this file, which holds the bytes of a .debug_info section. The table of all units stands in a file
    /// with the same name and `.abbrev` behind it.
    Entries(&'a str),
    /// The shortest range lists with so many items.
    Ranges(Shape, u32),
    /// So many operations of expressions, read and written.
    Expressions(u64),
}

// The drawn range lists with this name.
fn shape_of(name: &str) -> Option<Shape> {
    let (is_one, has_table) = match name {
        "lists" => (false, false),
        "indexed-lists" => (false, true),
        "list" => (true, false),
        "indexed-list" => (true, true),
        _ => return None,
    };
    Some(Shape { is_one, has_table })
}

// What is asked for by a verb with one operand.
fn work_on<'a>(verb: &str, operand: &'a str) -> Option<Work<'a>> {
    match verb {
        "lines" => Some(Work::Lines(operand)),
        "steps" => Some(Work::Steps(operand.parse().ok()?)),
        "pairs" => Some(Work::Pairs(operand.parse().ok()?)),
        "layout" => Some(Work::Layout(operand.parse().ok()?)),
        "values" => Some(Work::Values(operand.parse().ok()?)),
        "columns" => Some(Work::Columns(operand.parse().ok()?)),
        "entries" => Some(Work::Entries(operand)),
        "expressions" => Some(Work::Expressions(operand.parse().ok()?)),
        _ => None,
    }
}

/// What is asked for, where the words are right.
pub fn work_of(words: &[String]) -> Option<Work<'_>> {
    match words {
        [verb, operand] => work_on(verb.as_str(), operand.as_str()),
        [verb, name, count] if verb.as_str() == "ranges" => {
            let shape = shape_of(name.as_str())?;
            Some(Work::Ranges(shape, count.as_str().parse().ok()?))
        }
        _ => None,
    }
}
