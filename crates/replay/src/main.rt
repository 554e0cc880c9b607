// Replays the stored cases: five fields and every byte of both buffers of each answer are compared. It writes what
// differs, the edge cases that have names of their own, and how much was compared.
#![tactic(auto)]

ghost use Rattle.std.specs.Prelude.{◌≡◌, IfSome, take};
ghost use Rattle.std.specs.Option.{option_copied, option_map};
ghost use Rattle.io.specs.Counts.{IsPrefixLen};
ghost use Rattle.lines.specs.Text.{Tells};
ghost use Rattle.replay.specs.Printed.{printed};

use programs::input::read_file;
use programs::room::room;
use std::io::Write;

// Room for the cases.
const CASES_BYTES: usize = 1048576;

// Room for the labels.
const LABELS_BYTES: usize = 65536;

// Room for what is told: more than the stored cases give if every one of them differs.
const TEXT_BYTES: usize = 131072;

// What is written: the replay, where both files were read. The second statement follows from the first, and is what
// lending the written part needs.
fn told(cases: Option<&[u8]>, labels: Option<&[u8]>, text: &mut [u8]) -> usize
    ensures tells { Tells (printed (option_copied cases.entry) (option_copied labels.entry)) 0 result text.old text.new }
    ensures prefix_len { IsPrefixLen result text.new }
{
    let (Some(cases), Some(labels)) = (cases, labels) else {
        return replay_told::files::unread(text);
    };
    replay_verdict::replay(cases, labels, text)
}

// The part of a file's bytes that was read.
fn part(bytes: &[u8], len: Option<usize>) -> Option<&[u8]>
    requires { IfSome len (λ n. IsPrefixLen n bytes.now) }
    ensures { option_copied result ≡ option_map (λ n. take n bytes.now) len }
{
    match len {
        Some(n) => Some(&bytes[..n]),
        None => None,
    }
}

fn main(rt: HostRuntime) -> std::io::Result<()> {
    let mut file = room::<CASES_BYTES>();
    let of_file = read_file(&rt, b"cases.bin", &mut file);
    let mut names = room::<LABELS_BYTES>();
    let of_names = read_file(&rt, b"labels.txt", &mut names);
    let mut text = room::<TEXT_BYTES>();
    let count = told(part(&file, of_file), part(&names, of_names), &mut text);
    std::io::writer(&rt).write_all(&text[..count])
}
