// Plays sessions by the records of standard input: whole batches of two sessions, and single steps. Each step gives a line: its answer,
// the session's record after it, and digests of the ranges that it was lent. The records and the lines to be printed are written by
// reference/. What a program reads and writes no contract can say, so these functions have none, or only what makes their callers safe;
// that the lines are right is for the comparison to show.
#![tactic(auto)]

ghost use Rattle.std.specs.Prelude.{◌≡◌, ◌+◌, ◌≤◌, length};
ghost use Rattle.sizes.specs.Sizes.{siblings_length};

use cases::Sessions;
use cases::input::Records;
use rules::Record;
use std::io;
use std::io::Write;

// The length that stands at a place; no more than a derived range has, which the `ensures` says.
fn length_at(p: &[u8], at: usize) -> usize
    requires { at + 4 ≤ length p.now }
    ensures { result ≤ 61472 }
{
    (words::load32(p, at) as usize).min(61472)
}

// The record of a session at a place: the last batch number has 8 bytes; width before it, and blocks and stage after it, have 4 each.
fn record_at(p: &[u8], at: usize) -> Record
    requires { at + 20 ≤ length p.now }
{
    Record {
        width: words::load32(p, at),
        last: words::load64(p, at + 4),
        blocks: words::load32(p, at + 12),
        stage: words::load32(p, at + 16),
    }
}

// The answer's number and the record after a step, of whose last batch number this is the lower half. The `ensures` gives their length.
fn outcome(step: session::Stepped) -> [u8; 17]
    ensures { 17 ≡ length result }
{
    let result = step.answer;
    let record = step.record;
    let mut line = [0u8; 17];
    line[0] = answer::number_of(result).to_le_bytes()[0];
    words::store32(&mut line, 1, record.width);
    words::copy_part(&mut line, 5, &words::bytes64(record.last)[0..4]);
    words::store32(&mut line, 9, record.blocks);
    words::store32(&mut line, 13, record.stage);
    line
}

// A line of a step. Where the last batch number passes 32 bits, its upper half stands at the end.
fn print_line(to: &mut impl Write, line: &[u8], step: session::Stepped) -> io::Result<()> {
    cases::print_digits(to, line)?;
    let record = step.record;
    if 0xffff_ffff < record.last {
        cases::print_digits(to, &words::bytes64(record.last)[4..8])?;
    }
    cases::print(to, b"")
}

// The first 8 bytes of a range's digest.
fn digest_head(s: &[u8]) -> u64 {
    words::load64(&sha256::one::digest(s), 0)
}

// The outcome of a step, and the heads of the digests of the four ranges that it was lent.
fn print_step(
    to: &mut impl Write,
    step: session::Stepped,
    a: &[u8],
    b: &[u8],
    c: &[u8],
    d: &[u8],
) -> io::Result<()> {
    let mut line = [0u8; 49];
    words::copy_part(&mut line, 0, &outcome(step));
    words::store64(&mut line, 17, digest_head(a));
    words::store64(&mut line, 25, digest_head(b));
    words::store64(&mut line, 33, digest_head(c));
    words::store64(&mut line, 41, digest_head(d));
    print_line(to, &line, step)
}

// A single step, on a record of its own: a session's record, a batch number and blocks or a key, a seed, and the lengths of the four ranges that
// the step is lent: roots, choices, table and correction at the receiver's start; siblings, delta, correction and table at the sender's correction;
// choices, table, message and pads at the receiver's answer; table, delta, message and pads at the sender's verify.
fn single(to: &mut impl Write, kind: u8, p: &[u8]) -> io::Result<()> {
    let seed_at = if kind <= 5 { 32 } else { 28 };
    if p.len() != seed_at + 20 {
        return Ok(());
    }
    let seed = words::load32(p, seed_at);
    let mut all_a = cases::derived(seed, 0);
    let mut all_b = cases::derived(seed, 1);
    let mut all_c = cases::derived(seed, 2);
    let mut all_d = cases::derived(seed, 3);
    let a = &mut all_a[0..length_at(p, seed_at + 4)];
    let b = &mut all_b[0..length_at(p, seed_at + 8)];
    let c = &mut all_c[0..length_at(p, seed_at + 12)];
    let d = &mut all_d[0..length_at(p, seed_at + 16)];
    let record = record_at(p, 0);
    // the batch number, or the key
    let number = words::load64(p, 20);
    let blocks = words::load32(p, 28);
    let step = match kind {
        4 => session::receiver_start(record, a, number, blocks, b, c, d),
        5 => session::sender_correct(record, a, b, number, blocks, c, d),
        6 => session::receiver_answer(record, number, a, b, c, d),
        7 => session::sender_verify(record, number, a, b, c, d),
        _ => return Ok(()),
    };
    print_step(to, step, a, b, c, d)
}

// Makes an alteration, 8 bytes (a place in 4, a range's number in 2 and what to add in 2), if it has this range's number. (No method of a slice does
// that.)
fn alter(a: &[u8], range: u8, s: &mut [u8])
    requires { 8 ≡ length a.now }
{
    if a[4] == range {
        cases::alter(s, words::load32(a, 0) as usize, a[6]);
    }
}

// What a whole batch is played by: a batch number, blocks, a key, a seed, delta, the lengths of roots, choices, table, correction and both
// sides' pads, and the alterations: of the correction (0) and the message (1) as the sender gets them, and of W (2), delta (3) and the key (4)
// at the verify.
#[derive(Clone, Copy)]
struct Plan<'a> {
    batch: u64,
    blocks: u32,
    key: u64,
    seed: u32,
    payload: &'a [u8],
    ghost whole: { 64 ≤ length payload.now },
}

impl<'a> Plan<'a> {
    // None where the payload is too short.
    fn read(payload: &'a [u8]) -> Option<Plan<'a>> {
        if payload.len() < 64 {
            return None;
        }
        Some(Plan {
            batch: words::load64(payload, 0),
            blocks: words::load32(payload, 8),
            key: words::load64(payload, 12),
            seed: words::load32(payload, 20),
            payload,
        })
    }

    // The length that stands at a place; no more than a derived range has.
    fn length_at(&self, at: usize) -> usize
        requires { at + 4 ≤ 64 }
        ensures { result ≤ 61472 }
    {
        length_at(self.payload, at)
    }

    // Makes all alterations of a range.
    fn damage(&self, range: u8, s: &mut [u8]) {
        for alteration in self.payload[64..].chunks_exact(8) {
            alter(alteration, range, s);
        }
    }

    // Delta as it is planned. The `ensures` of this and of the next give its length.
    fn delta(&self) -> [u8; 16]
        ensures { 16 ≡ length result }
    {
        let mut delta = [0u8; 16];
        words::copy_part(&mut delta, 0, &self.payload[24..40]);
        delta
    }

    // Delta and the key at the verify.
    fn verify_delta(&self) -> [u8; 16]
        ensures { 16 ≡ length result }
    {
        let mut delta = self.delta();
        self.damage(3, &mut delta);
        delta
    }

    fn verify_key(&self) -> u64 {
        let mut key = words::bytes64(self.key);
        self.damage(4, &mut key);
        words::load64(&key, 0)
    }
}

// The receiver's start and answer in a whole batch. The record goes from one to the other.
fn batch_receiver(
    to: &mut impl Write,
    record: Record,
    plan: Plan<'_>,
    roots: &[u8],
    correction: &mut [u8],
    message: &mut [u8],
) -> io::Result<Record> {
    let mut all_choices = cases::derived(plan.seed, 1);
    let mut all_table = cases::derived(plan.seed, 2);
    let mut all_pads = cases::derived(plan.seed, 6);
    let choices = &mut all_choices[0..plan.length_at(44)];
    let table = &mut all_table[0..plan.length_at(48)];
    let pads = &mut all_pads[0..plan.length_at(56)];
    let start = session::receiver_start(
        record,
        roots,
        plan.batch,
        plan.blocks,
        choices,
        table,
        correction,
    );
    print_step(to, start, roots, choices, table, correction)?;
    let end = session::receiver_answer(start.record, plan.key, choices, table, message, pads);
    print_step(to, end, choices, table, message, pads)?;
    Ok(end.record)
}

// The siblings that an honest setup leaves, where every base pad is 0. The `ensures` gives their length.
fn siblings_of(width: u32, roots: &[u8], delta: &[u8]) -> [u8; sizes::SIBLINGS_LENGTH]
    ensures { siblings_length ≡ length result }
{
    let base_pads = [0u8; sizes::RECEIVER_BASE_PADS_LENGTH];
    let mut message = [0u8; sizes::SETUP_MESSAGE_LENGTH];
    let _ = setup::receiver_setup(width, roots, &base_pads, &mut message);
    let mut siblings = [0u8; sizes::SIBLINGS_LENGTH];
    let mine = &base_pads[0..sizes::SENDER_BASE_PADS_LENGTH];
    let _ = setup::sender_setup(width, delta, mine, &message, &mut siblings);
    siblings
}

// The sender's correction in a whole batch, after the setup, on a correction that may be damaged.
fn batch_correct(
    to: &mut impl Write,
    record: Record,
    plan: Plan<'_>,
    roots: &[u8],
    correction: &mut [u8],
    table: &mut [u8],
) -> io::Result<Record> {
    plan.damage(0, correction);
    let delta = plan.delta();
    let siblings = siblings_of(record.width, roots, &delta);
    let step = session::sender_correct(
        record,
        &siblings,
        &delta,
        plan.batch,
        plan.blocks,
        correction,
        table,
    );
    print_step(to, step, &siblings, &delta, correction, table)?;
    Ok(step.record)
}

// The sender's verify in a whole batch.
fn batch_verify(
    to: &mut impl Write,
    record: Record,
    plan: Plan<'_>,
    table: &[u8],
    message: &[u8],
) -> io::Result<Record> {
    let delta = plan.verify_delta();
    let mut all_pads = cases::derived(plan.seed, 7);
    let pads = &mut all_pads[0..plan.length_at(60)];
    let step = session::sender_verify(record, plan.verify_key(), table, &delta, message, pads);
    print_step(to, step, table, &delta, message, pads)?;
    Ok(step.record)
}

// The sender's correction and verify in a whole batch. The record goes from one to the other; the table and the message may be damaged
// between them.
fn batch_sender(
    to: &mut impl Write,
    record: Record,
    plan: Plan<'_>,
    roots: &[u8],
    correction: &mut [u8],
    message: &mut [u8],
) -> io::Result<Record> {
    let mut all_table = cases::derived(plan.seed, 4);
    let table = &mut all_table[0..plan.length_at(48)];
    let open = batch_correct(to, record, plan, roots, correction, table)?;
    plan.damage(1, message);
    plan.damage(2, table);
    batch_verify(to, open, plan, table, message)
}

// A whole batch of the two sessions: the four steps, a line each.
fn batch(to: &mut impl Write, both: Sessions, p: &[u8]) -> io::Result<Sessions> {
    let Some(plan) = Plan::read(p) else {
        return Ok(both);
    };
    let all_roots = cases::derived(plan.seed, 0);
    let mut all_correction = cases::derived(plan.seed, 3);
    let mut all_message = cases::derived(plan.seed, 5);
    let roots = &all_roots[0..plan.length_at(40)];
    let correction = &mut all_correction[0..plan.length_at(52)];
    let message = &mut all_message[0..sizes::CHECK_MESSAGE_LENGTH];
    let receiver = batch_receiver(to, both.receiver, plan, roots, correction, message)?;
    let sender = batch_sender(to, both.sender, plan, roots, correction, message)?;
    Ok(Sessions { receiver, sender })
}

// The records that the two sessions are to have.
fn set(both: Sessions, p: &[u8]) -> Sessions {
    if p.len() != 40 {
        return both;
    }
    let receiver = record_at(p, 0);
    let sender = record_at(p, 20);
    Sessions { receiver, sender }
}

// A width: opens both sessions, whatever their records hold; a line each.
fn open(to: &mut impl Write, both: Sessions, p: &[u8]) -> io::Result<Sessions> {
    if p.len() != 4 {
        return Ok(both);
    }
    let width = words::load32(p, 0);
    let first = session::open(both.receiver, width);
    let second = session::open(both.sender, width);
    print_line(to, &outcome(first), first)?;
    print_line(to, &outcome(second), second)?;
    let receiver = first.record;
    let sender = second.record;
    Ok(Sessions { receiver, sender })
}

// What a record asks for: the sessions' records, both opened, a whole batch; or a single step, on a record of its own. (A kind is a byte of the
// input, which an enum would have to be made of first, here and in `single`.)
fn case(to: &mut impl Write, both: Sessions, kind: u8, p: &[u8]) -> io::Result<Sessions> {
    match kind {
        1 => return Ok(set(both, p)),
        2 => return open(to, both, p),
        3 => return batch(to, both, p),
        4..=7 => single(to, kind, p)?,
        _ => {}
    }
    Ok(both)
}

// (Apart from other programs' mains: only a main is handed the runtime.)
fn main(rt: HostRuntime) -> io::Result<()> {
    let mut buffer = cases::million(0);
    let n = cases::read_full(&mut rt.stdin(), &mut buffer)?;
    let mut to = rt.stdout();
    // two sessions whose records hold nothing
    let nothing = Record::new(0);
    let mut both = Sessions {
        receiver: nothing,
        sender: nothing,
    };
    for record in (Records { rest: &buffer[..n] }) {
        both = case(&mut to, both, record.kind, record.payload)?;
    }
    Ok(())
}
