// A list as text: its numbers with commas between them, or a star for everything.
ghost use Rattle.std.specs.Prelude.{◌≡◌, IfOk, string_bytes, OnOk};
ghost use Rattle.notation.specs.Lists.{appended, with_numeral, read_numbers, read_list, with_number, numbers_text, list_text};

use crate::Notation;
use crate::numerals::number_in;
use domain::Domain;
use list::NumberList;
use numbers::Int;
use std::alloc::{AllocError, Global};
use std::fmt::Write;

// The list with a number behind its last; there is no place for a ninth.
fn append(list: NumberList, number: Int) -> Option<NumberList>
    ensures { result ≡ appended list number }
{
    let NumberList::Numbers { count, mut numbers } = list else {
        return None;
    };
    let place = count as usize;
    if place < 8 {
        numbers[place] = number;
        Some(NumberList::Numbers {
            count: count + 1,
            numbers,
        })
    } else {
        None
    }
}

// The list, if there is one, with the number that the bytes write behind its last.
fn append_numeral(list: Option<NumberList>, bytes: &[u8]) -> Option<NumberList>
    ensures { result ≡ with_numeral list bytes.now }
{
    append(list?, number_in(bytes)?)
}

fn read_numbers(bytes: &[u8]) -> Option<NumberList>
    ensures { result ≡ read_numbers bytes.now }
{
    // a loop, which ends at the first word that is no number, or a ninth: `fold` goes through all
    let mut list = NumberList::NONE;
    for word in bytes.split(|b| *b == b',') {
        list = append_numeral(Some(list), word)?;
    }
    Some(list)
}

fn read_list(bytes: &[u8]) -> Option<NumberList>
    ensures { result ≡ read_list bytes.now }
{
    match bytes {
        b"*" => Some(NumberList::Everything),
        _ => read_numbers(bytes),
    }
}

// Appends a number, behind a comma unless it is the first.
fn push_number(out: &mut String, number: Int) -> Result<(), AllocError>
    ensures { OnOk result (string_bytes out.new ≡ with_number (string_bytes out.old) number) }
{
    if !out.is_empty() {
        out.push_str(",")?;
    }
    write!(out, "{number}")
}

// The numbers with commas between them.
fn numbers_text(heap: Global, numbers: &[Int]) -> Result<String, AllocError>
    ensures { IfOk result (λ s. string_bytes s ≡ numbers_text numbers.now) }
{
    let mut out = String::new(heap);
    for number in numbers {
        push_number(&mut out, *number)?;
    }
    Ok(out)
}

fn list_text(heap: Global, list: NumberList) -> Result<String, AllocError>
    ensures { IfOk result (λ s. string_bytes s ≡ list_text list) }
{
    match list {
        NumberList::Everything => String::from_str(heap, "*"),
        NumberList::Numbers { .. } => numbers_text(heap, list.listed()),
    }
}

impl Notation for NumberList {
    ghost written = { list_text };

    ghost read_as = { read_list };

    fn text(self, heap: Global) -> Result<String, AllocError> {
        list_text(heap, self)
    }

    fn read(bytes: &[u8]) -> Option<NumberList> {
        read_list(bytes)
    }
}
