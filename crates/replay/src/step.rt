// The steps: a call of pokerbox each, or what a node does between calls. README.md has the letters.
use super::text::{
    arguments, byte_at, bytes_at, copy, length_at, part, read_line, rest, say_bytes, say_line,
    say_number,
};
use pokerbox::{
    pokerbox_admit, pokerbox_cancel, pokerbox_confirmations, pokerbox_deadline_due, pokerbox_due,
    pokerbox_entry, pokerbox_expire, pokerbox_fresh, pokerbox_guard_snapshot, pokerbox_guarded_ids,
    pokerbox_image, pokerbox_is_empty, pokerbox_list, pokerbox_observation_cursor,
    pokerbox_observed_height, pokerbox_open, pokerbox_reconcile, pokerbox_record_ids,
    pokerbox_reopen, pokerbox_reservation_snapshot, pokerbox_reserved_inputs, pokerbox_revision,
    pokerbox_selection_entries, pokerbox_selection_entries_at, pokerbox_set_cursor,
    pokerbox_settle, pokerbox_signed_bytes, pokerbox_sound,
};
use std::io;
use std::io::{Read, Write};

// How many bytes an area has at most, and an output.
const AREA: usize = 8192;

// How many an image has at most, and a line of the list.
const TEXT: usize = 16384;

// How many steps a list has at most.
const STEPS: usize = 1000000;

// What the next area and an output hold before a call.
const UNTOUCHED: u8 = 238;

// Bytes, and how many of them are lent or stored: more than there are stands for all.
#[derive(Clone, Copy)]
struct Buffer<const N: usize> {
    bytes: [u8; N],
    len: usize,
}

impl<const N: usize> Buffer<N> {
    fn new(len: usize) -> Self {
        Buffer { bytes: [0; N], len }
    }

    fn lent(&self) -> &[u8] {
        part(&self.bytes, 0, self.len)
    }

    // These bytes, then zeros.
    fn put(&mut self, bytes: &[u8]) {
        self.bytes.fill(0);
        copy(bytes, &mut self.bytes);
    }

    // A line, behind what is stored.
    fn add_line(&mut self, line: &[u8]) {
        let at = self.len.min(N);
        let bytes: &mut [u8] = &mut self.bytes;
        let end = at + copy(line, &mut bytes[at..]);
        copy(b"\n", &mut bytes[end..]);
        self.len = end + 1;
    }
}

// What is lent to the calls and stored, and where the answers go.
#[derive(Drop)]
struct Replay<W> {
    answers: W,
    cur: Buffer<AREA>,
    next: Buffer<AREA>,
    image: Buffer<TEXT>,
    stored: Buffer<TEXT>,
    // How many bytes are lent for an image.
    room: usize,
}

impl<W: Write> Replay<W> {
    fn new(answers: W) -> Self {
        Replay {
            answers,
            cur: Buffer::new(AREA),
            next: Buffer::new(AREA),
            image: Buffer::new(0),
            stored: Buffer::new(0),
            room: TEXT,
        }
    }

    // How many bytes are lent from now on.
    fn lend(&mut self, args: &[u8]) {
        self.cur.len = u32::from_be_bytes(bytes_at(args, 0)) as usize;
        self.next.len = u32::from_be_bytes(bytes_at(args, 4)) as usize;
        self.room = u32::from_be_bytes(bytes_at(args, 8)) as usize;
    }

    // One line of the list.
    fn step(&mut self, line: &[u8]) -> io::Result<()> {
        let letter = byte_at(line, 0);
        let mut space = [0u8; AREA];
        let n = arguments(line, &mut space);
        let args = part(&space, 0, n);
        match letter {
            b'#' => {
                self.answers.write_all(line)?;
                return self.answers.write_all(b"\n");
            }
            b'0' => self.stored.add_line(line),
            b'a' => self.cur.put(args),
            b'b' => self.next.put(args),
            b'k' => self.cur.bytes = self.next.bytes,
            b'l' => self.lend(args),
            b'm' => self.stored.len = 0,
            b't' => self.stored = self.image,
            b'x' => self.stored.len = u32::from_be_bytes(bytes_at(args, 0)) as usize,
            _ => return self.answer(letter, args),
        }
        Ok(())
    }

    // A step that answers: each call with the arguments that README.md gives. Those of a call with an output begin with its length.
    fn answer(&mut self, letter: u8, args: &[u8]) -> io::Result<()> {
        let behind = rest(args, 2);
        match letter {
            b'f' => self.make(letter, |_, area| {
                pokerbox_fresh(
                    u64::from_be_bytes(bytes_at(args, 0)),
                    u64::from_be_bytes(bytes_at(args, 8)),
                    u64::from_be_bytes(bytes_at(args, 16)),
                    u64::from_be_bytes(bytes_at(args, 24)),
                    rest(args, 32),
                    area,
                )
            }),
            b'o' => self.make(letter, pokerbox_open),
            b'w' => self.next_image(letter),
            b'q' => self.show(letter),
            b'p' => self.persisted(letter),
            b'v' => say_line(&mut self.answers, letter, pokerbox_sound(self.cur.lent())),
            b's' => self.settle(letter, args),
            b'c' => self.change(letter, args, |cur, next, out| {
                pokerbox_cancel(cur, next, behind, out)
            }),
            b'd' => self.change(letter, args, |cur, next, out| admit(behind, cur, next, out)),
            b'e' => self.change(letter, args, |cur, next, out| {
                pokerbox_expire(cur, next, time_at(behind), height_at(behind), out)
            }),
            b'n' => self.change(
                letter,
                args,
                |cur, next, out| reconcile(behind, cur, next, out),
            ),
            b'r' => self.change(
                letter,
                args,
                |cur, next, _| pokerbox_reopen(cur, next, behind),
            ),
            b'u' => self.change(letter, args, |cur, next, _| {
                pokerbox_set_cursor(
                    cur,
                    next,
                    u32::from_be_bytes(bytes_at(behind, 0)),
                    byte_at(behind, 4),
                    rest(behind, 5),
                )
            }),
            b'B' => self.signed(letter, args),
            b'D' => self.value(letter, |area, value| {
                pokerbox_deadline_due(area, time_at(args), height_at(args), value)
            }),
            b'E' => self.value(letter, pokerbox_is_empty),
            b'H' => self.value(letter, pokerbox_observed_height),
            b'R' => self.value(letter, pokerbox_revision),
            b'C' => self.read(letter, args, pokerbox_observation_cursor),
            b'F' => self.read(letter, args, pokerbox_confirmations),
            b'G' => self.read(letter, args, pokerbox_guarded_ids),
            b'I' => self.read(letter, args, pokerbox_record_ids),
            b'L' => self.read(letter, args, pokerbox_list),
            b'N' => self.read(letter, args, |area, out| pokerbox_entry(area, behind, out)),
            b'S' => self.read(letter, args, pokerbox_selection_entries),
            b'T' => self.read(letter, args, |area, out| {
                pokerbox_selection_entries_at(area, time_at(behind), height_at(behind), out)
            }),
            b'X' => self.read(letter, args, pokerbox_reserved_inputs),
            b'Y' => self.read(letter, args, pokerbox_reservation_snapshot),
            b'Z' => self.read(letter, args, pokerbox_guard_snapshot),
            // U, and whatever letter is none of these.
            _ => self.read(letter, args, |area, out| {
                pokerbox_due(area, time_at(behind), height_at(behind), out)
            }),
        }
    }

    // A queue into the current area.
    // Kept: what a call of a closure needs is said by each function that takes one.
    fn make<F: Fn(&[u8], &mut [u8]) -> u64>(&mut self, letter: u8, call: F) -> io::Result<()>
        requires { F.IsAlwaysCallable call }
    {
        let n = self.cur.len.min(AREA);
        let area = &mut self.cur.bytes[..];
        let answer = call(self.stored.lent(), &mut area[..n]);
        say_line(&mut self.answers, letter, answer)
    }

    // A changing call. After a refusal and kind 0 the next area is as it was.
    // Kept: as at `make`.
    fn change<F: Fn(&[u8], &mut [u8], &mut [u8]) -> u64>(
        &mut self,
        letter: u8,
        args: &[u8],
        call: F,
    ) -> io::Result<()>
        requires { F.IsAlwaysCallable call }
    {
        let mut space = [UNTOUCHED; AREA];
        let n = length_at(args, 0).min(AREA);
        let m = self.next.len.min(AREA);
        let next = &mut self.next.bytes[..];
        next[..m].fill(UNTOUCHED);
        let answer = call(self.cur.lent(), &mut next[..m], &mut space[..n]);
        say_number(&mut self.answers, letter, answer)?;
        say_bytes(&mut self.answers, &space[..n])?;
        if answer <= 100 && self.next.lent().iter().any(|byte| *byte != UNTOUCHED) {
            self.answers.write_all(b" next area changed")?;
        }
        self.answers.write_all(b"\n")
    }

    fn settle(&mut self, letter: u8, args: &[u8]) -> io::Result<()> {
        let m = self.next.len.min(AREA);
        let next = &mut self.next.bytes[..];
        let answer = pokerbox_settle(
            self.cur.lent(),
            &mut next[..m],
            u64::from(byte_at(args, 0)),
            u64::from(byte_at(args, 1)),
        );
        say_line(&mut self.answers, letter, answer)
    }

    // A reading call with an output.
    // Kept: as at `make`.
    fn read<F: Fn(&[u8], &mut [u8]) -> u64>(
        &mut self,
        letter: u8,
        args: &[u8],
        call: F,
    ) -> io::Result<()>
        requires { F.IsAlwaysCallable call }
    {
        let mut space = [UNTOUCHED; AREA];
        let n = length_at(args, 0).min(AREA);
        let answer = call(self.cur.lent(), &mut space[..n]);
        say_number(&mut self.answers, letter, answer)?;
        say_bytes(&mut self.answers, &space[..n])?;
        self.answers.write_all(b"\n")
    }

    // A reading call that answers a number.
    // Kept: as at `make`.
    fn value<F: Fn(&[u8], &mut u64) -> u64>(&mut self, letter: u8, call: F) -> io::Result<()>
        requires { F.IsAlwaysCallable call }
    {
        let mut value: u64 = 0;
        let answer = call(self.cur.lent(), &mut value);
        say_number(&mut self.answers, letter, answer)?;
        writeln!(self.answers, " {value}")
    }

    fn signed(&mut self, letter: u8, id: &[u8]) -> io::Result<()> {
        let area = self.cur.lent();
        let mut start: u64 = 0;
        let mut size: u64 = 0;
        let answer = pokerbox_signed_bytes(area, id, &mut start, &mut size);
        say_number(&mut self.answers, letter, answer)?;
        say_bytes(&mut self.answers, part(area, start as usize, size as usize))?;
        self.answers.write_all(b"\n")
    }

    // The persisted height, which an image has not.
    fn persisted(&mut self, letter: u8) -> io::Result<()> {
        self.answers.write_all(&[letter])?;
        say_bytes(&mut self.answers, part(self.cur.lent(), 0, 4))?;
        self.answers.write_all(b"\n")
    }

    // The image of the current area.
    fn show(&mut self, letter: u8) -> io::Result<()> {
        let mut space = [0u8; TEXT];
        say_image(&mut self.answers, letter, self.cur.lent(), &mut space)?;
        Ok(())
    }

    // The image of the next area, which is the last one from now on.
    fn next_image(&mut self, letter: u8) -> io::Result<()> {
        let n = self.room.min(TEXT);
        let image = &mut self.image.bytes[..];
        self.image.len = say_image(&mut self.answers, letter, self.next.lent(), &mut image[..n])?;
        Ok(())
    }
}

// An image's text has its own lines: how long it is.
fn say_image(
    answers: &mut impl Write,
    letter: u8,
    area: &[u8],
    out: &mut [u8],
) -> io::Result<usize> {
    let mut size: u64 = 0;
    let answer = pokerbox_image(area, out, &mut size);
    say_line(answers, letter, answer)?;
    let n = size as usize;
    answers.write_all(part(out, 0, n))?;
    Ok(n)
}

// The time and the height of a call that has both at the start of its arguments.
fn time_at(args: &[u8]) -> u64 {
    u64::from_be_bytes(bytes_at(args, 0))
}

fn height_at(args: &[u8]) -> u32 {
    u32::from_be_bytes(bytes_at(args, 8))
}

// What has one length stands first, then the lengths of the rest, then these.
// Kept: the areas and the output are what the call takes.
fn admit(args: &[u8], cur: &[u8], next: &mut [u8], out: &mut [u8]) -> u64 {
    let id = length_at(args, 53);
    let inputs = length_at(args, 55);
    let outputs = length_at(args, 57);
    let reads = length_at(args, 59);
    let signed = length_at(args, 61);
    let label = length_at(args, 63);
    let tip = length_at(args, 65);
    let inputs_at = 67 + id;
    let outputs_at = inputs_at + inputs;
    let reads_at = outputs_at + outputs;
    let signed_at = reads_at + reads;
    let label_at = signed_at + signed;
    let tip_at = label_at + label;
    pokerbox_admit(
        cur,
        next,
        part(args, 67, id),
        byte_at(args, 52),
        part(args, inputs_at, inputs),
        part(args, outputs_at, outputs),
        part(args, reads_at, reads),
        part(args, signed_at, signed),
        u64::from_be_bytes(bytes_at(args, 0)),
        byte_at(args, 8),
        u64::from_be_bytes(bytes_at(args, 9)),
        byte_at(args, 17),
        u32::from_be_bytes(bytes_at(args, 18)),
        u64::from_be_bytes(bytes_at(args, 22)),
        byte_at(args, 30),
        part(args, label_at, label),
        u64::from_be_bytes(bytes_at(args, 31)),
        u64::from_be_bytes(bytes_at(args, 39)),
        u32::from_be_bytes(bytes_at(args, 47)),
        byte_at(args, 51),
        part(args, tip_at, tip),
        out,
    )
}

// The numbers, then the lengths of the lists, then these.
// Kept: as at `admit`.
fn reconcile(args: &[u8], cur: &[u8], next: &mut [u8], out: &mut [u8]) -> u64 {
    let tip = length_at(args, 9);
    let applied = length_at(args, 11);
    let available = length_at(args, 13);
    let applied_at = 15 + tip;
    let available_at = applied_at + applied;
    pokerbox_reconcile(
        cur,
        next,
        u32::from_be_bytes(bytes_at(args, 0)),
        part(args, 15, tip),
        part(args, applied_at, applied),
        byte_at(args, 4),
        part(args, available_at, available),
        u32::from_be_bytes(bytes_at(args, 5)),
        out,
    )
}

// The list, with areas of 8,192 bytes and images of 16,384 at most. It has to end, whatever is read, so its steps are counted.
pub fn run(list: &mut impl Read, answers: &mut impl Write) -> io::Result<()> {
    let mut line = [0u8; TEXT];
    let mut replay = Replay::new(answers);
    for _ in 0..STEPS {
        let Some(n) = read_line(list, &mut line)? else {
            return Ok(());
        };
        replay.step(part(&line, 0, n))?;
    }
    Ok(())
}
