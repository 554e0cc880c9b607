// What is told of a case: what differs, and the number of an edge case that has a name.
ghost use Rattle.std.specs.Prelude.{◌≤◌, ◌≡◌, length};
ghost use Rattle.lines.specs.Text.{Tells};
ghost use Rattle.replay_cases.specs.Judged.{agrees};
ghost use Rattle.replay_told.specs.Told.{unless, parts_text, differs_text, is_named, named_text, case_text};

use image_texts::same::same_text;
use lines::text::{put_bytes, put_number};
use replay_cases::verdict::Compared;

// A part's name, where the part is not as stored.
fn part(text: &mut [u8], at: usize, same: bool, name: &[u8]) -> usize
    requires { at ≤ length text.old }
    ensures { Tells (unless same name.now) at result text.old text.new }
{
    if same {
        return at;
    }
    put_bytes(text, at, name)
}

// The parts that are not.
fn parts(text: &mut [u8], at: usize, c: Compared) -> usize
    requires { at ≤ length text.old }
    ensures { Tells (parts_text c) at result text.old text.new }
{
    let fields = part(text, at, c.fields, b", fields");
    let output = part(text, fields, c.output, b", output");
    part(text, output, c.detail, b", detail")
}

// What differs, with the answer's five fields.
fn differs(text: &mut [u8], at: usize, label: &[u8], c: Compared) -> usize
    requires { at ≤ length text.old }
    ensures { Tells (differs_text label.now c) at result text.old text.new }
{
    let first = put_bytes(text, at, b"DIFFERS: ");
    let second = put_bytes(text, first, label);
    let third = parts(text, second, c);
    let fourth = put_bytes(text, third, b": answered ");
    let a = c.answer;
    lines::answer::put_fields(text, fourth, a)
}

// That, where something does.
fn difference(text: &mut [u8], at: usize, label: &[u8], c: Compared) -> usize
    requires { at ≤ length text.old }
    ensures { Tells (unless (agrees c) (differs_text label.now c)) at result text.old text.new }
{
    if c.same() {
        return at;
    }
    differs(text, at, label, c)
}

// Whether a label is that of an edge case that is told by name.
fn named(label: &[u8]) -> bool
    ensures { result ≡ is_named label.now }
{
    same_text(label, b"visits-1024")
        | same_text(label, b"visits-1025")
        | same_text(label, b"alias-itself")
}

// Such a case's number.
fn by_name(text: &mut [u8], at: usize, label: &[u8], number: u32) -> usize
    requires { at ≤ length text.old }
    ensures { Tells (named_text label.now number) at result text.old text.new }
{
    if !named(label) {
        return at;
    }
    let first = put_bytes(text, at, label);
    let second = put_bytes(text, first, b": ");
    put_number(text, second, number, b'\n')
}

// All that is told of a case.
pub fn tell(text: &mut [u8], at: usize, label: &[u8], c: Compared) -> usize
    requires { at ≤ length text.old }
    ensures { Tells (case_text label.now c) at result text.old text.new }
{
    let next = difference(text, at, label, c);
    let a = c.answer;
    by_name(text, next, label, a.number)
}
