// Plays both sides through their setup and five batches at width 8, on ranges that fixed seeds give, and prints what the two sides can lay
// beside each other: answers, the last batch number, blocks and transfers. Three batches are honest; in the fourth the receiver cheats, and
// the fifth finds the sender's session closed. Only a demonstration has both sides' pads, and it compares every one. What a program writes
// no contract can say, so these functions have none, or only what makes their callers safe.
#![tactic(auto)]

ghost use Rattle.std.specs.Prelude.{◌≡◌, ◌*◌, ◌≤◌, length, IfOk};
ghost use Rattle.sizes.specs.Sizes.{delta_length, receiver_base_pads_length, sender_base_pads_length, siblings_length, receiver_pads_length, sender_pads_length};

use answer::Refusal;
use cases::Sessions;
use rules::Record;
use std::io;
use std::io::Write;

// A batch to be played: its number, blocks and key, and what is added to a byte of tree 1's correction on its way to the sender. `few` bounds
// the lengths of its ranges.
#[derive(Clone, Copy)]
struct Batch {
    number: u64,
    blocks: u32,
    key: u64,
    flip: u8,
    ghost few: { blocks ≤ 15 },
}

// A batch that is open on both sides: what the receiver's start and the sender's correction gave.
#[derive(Clone, Copy)]
struct Opened {
    start: session::Stepped,
    correct: session::Stepped,
}

// Prints a text and the first 8 bytes of the digest of a range.
fn say_digest(to: &mut impl Write, text: &str, s: &[u8]) -> io::Result<()> {
    write!(to, "{text}")?;
    let digest = sha256::one::digest(s);
    cases::print_digits(to, &digest[0..8])
}

// The transfers of a batch, which count where the step that ends it was done.
fn transfers(end: Result<(), Refusal>, blocks: u32) -> u64 {
    if end.is_ok() { 64 * (blocks as u64) } else { 0 }
}

// One side's account of a batch, from the step that opened it and the one that ended it.
fn say_side(
    to: &mut impl Write,
    name: &str,
    start: session::Stepped,
    end: session::Stepped,
) -> io::Result<()> {
    let blocks = start.record.blocks;
    let count = transfers(end.answer, blocks);
    let first = answer::number_of(start.answer);
    let second = answer::number_of(end.answer);
    let after = end.record;
    write!(
        to,
        "{name}: last {}, blocks {blocks}, transfers {count}, answers {first} {second}, stage {}",
        after.last, after.stage
    )
}

// Of a pair of pads the second where the mask is all ones, the first where it is 0.
fn choose(pair: &[u8], mask: u8, out: &mut [u8])
    requires { (64 ≡ length pair.now) × (32 ≡ length out.old) }
{
    for i in 0..32usize {
        out[i] = (pair[i] & (255 ^ mask)) ^ (pair[32 + i] & mask);
    }
}

// 1 where two pads are the same in every byte, 0 elsewhere. (Pads are secret: `==` might stop at the first byte that differs.)
fn same(a: &[u8], b: &[u8]) -> u64
    requires { (32 ≡ length a.now) × (32 ≡ length b.now) }
    ensures { result ≤ 1 }
{
    let mut difference: u8 = 0;
    for i in 0..32usize {
        difference |= a[i] ^ b[i];
    }
    u64::from(difference == 0)
}

// Of eight transfers with the choices of one byte, how many of the receiver's pads are the sender's pad of that choice.
fn agree_in_eight(choices: u8, mine: &[u8], theirs: &[u8]) -> u64
    requires { (256 ≡ length mine.now) × (512 ≡ length theirs.now) }
    ensures { result ≤ 8 }
{
    let mut count: u64 = 0;
    let mut left = choices;
    let mut pad = [0u8; 32];
    for j in 0..8usize {
        choose(&theirs[64 * j..64 * j + 64], 255 * (left % 2), &mut pad);
        count += same(&mine[32 * j..32 * j + 32], &pad);
        left = left / 2;
    }
    count
}

// Of all transfers of a batch, how many of the receiver's pads are the sender's pad of that choice.
fn agree(bytes: usize, choices: &[u8], mine: &[u8], theirs: &[u8]) -> u64
    requires { (bytes ≤ 120) × (bytes ≤ length choices.now) × (256 * bytes ≡ length mine.now) × (512 * bytes ≡ length theirs.now) }
{
    let mut count: u64 = 0;
    for j in 0..bytes {
        let mine_eight = &mine[256 * j..256 * j + 256];
        count += agree_in_eight(choices[j], mine_eight, &theirs[512 * j..512 * j + 512]);
    }
    count
}

// Whether a range of zeros was written to. (It has pads, so `any` doesn't serve, which might stop early.)
fn written(s: &[u8]) -> bool {
    let mut any: u8 = 0;
    for byte in s {
        any |= *byte;
    }
    any != 0
}

// What a comparison of both sides' pads finds.
fn say_pads(
    to: &mut impl Write,
    bytes: usize,
    choices: &[u8],
    mine: &[u8],
    theirs: &[u8],
) -> io::Result<()>
    requires { (bytes ≤ 120) × (bytes ≤ length choices.now) × (256 * bytes ≡ length mine.now) × (512 * bytes ≡ length theirs.now) }
{
    let count = agree(bytes, choices, mine, theirs);
    let all = 8 * bytes;
    write!(to, "\n  pads that agree: {count} of {all}")?;
    if written(theirs) {
        write!(to, "; the sender's were written")?;
    } else {
        write!(to, "; none of the sender's was written")?;
    }
    say_digest(to, "; digests ", mine)?;
    say_digest(to, " ", theirs)?;
    writeln!(to)
}

// The pads that the sender has of one tree's base transfers: at each level the one numbered 1 minus the path bit. The path's
// lowest bit is that of the last level.
fn tree_base_pads(path: u8, pairs: &[u8], out: &mut [u8])
    requires { (512 ≡ length pairs.now) × (256 ≡ length out.old) }
{
    let mut left = path;
    for l in (0..8usize).rev() {
        let pair = &pairs[64 * l..64 * l + 64];
        choose(pair, 255 * (1 - left % 2), &mut out[32 * l..32 * l + 32]);
        left = left / 2;
    }
}

// The pads that 128 base transfers leave the sender. At width 8 a tree's part of delta is a byte.
fn sender_base_pads(delta: &[u8], pairs: &[u8], out: &mut [u8])
    requires { (delta_length ≡ length delta.now) × (receiver_base_pads_length ≡ length pairs.now) × (sender_base_pads_length ≡ length out.old) }
{
    for i in 0..16usize {
        let tree_pairs = &pairs[512 * i..512 * i + 512];
        tree_base_pads(delta[i], tree_pairs, &mut out[256 * i..256 * i + 256]);
    }
}

// Both setups: the sender's siblings. The `ensures` gives their length.
fn siblings_of(
    to: &mut impl Write,
    roots: &[u8],
    delta: &[u8],
) -> io::Result<[u8; sizes::SIBLINGS_LENGTH]>
    requires { delta_length ≡ length delta.now }
    ensures { IfOk result (λ siblings. siblings_length ≡ length siblings) }
{
    let all_pairs = cases::derived(1, 2);
    let pairs = &all_pairs[0..sizes::RECEIVER_BASE_PADS_LENGTH];
    let mut message = [0u8; sizes::SETUP_MESSAGE_LENGTH];
    let first = setup::receiver_setup(8, roots, pairs, &mut message);
    let mut pads = [0u8; sizes::SENDER_BASE_PADS_LENGTH];
    sender_base_pads(delta, pairs, &mut pads);
    let mut siblings = [0u8; sizes::SIBLINGS_LENGTH];
    let second = setup::sender_setup(8, delta, &pads, &message, &mut siblings);
    let first = answer::number_of(first);
    let second = answer::number_of(second);
    writeln!(to, "setup, width 8: answers {first} {second}")?;
    Ok(siblings)
}

// The receiver's start and the sender's correction.
fn open_batch(
    both: Sessions,
    b: Batch,
    roots: &[u8],
    delta: &[u8],
    siblings: &[u8],
    choices: &mut [u8],
    v: &mut [u8],
    w: &mut [u8],
) -> Opened {
    let len = sizes::column_length(b.blocks);
    let mut all_correction = [0u8; 1920];
    let correction = &mut all_correction[0..15 * len];
    let receiver = both.receiver;
    let sender = both.sender;
    let start = session::receiver_start(
        receiver, roots, b.number, b.blocks, choices, v, correction,
    );
    cases::alter(correction, 5, b.flip);
    let correct = session::sender_correct(
        sender, siblings, delta, b.number, b.blocks, correction, w,
    );
    Opened { start, correct }
}

// The receiver's answer and the sender's verify, and both sides' accounts of the batch, side by side.
fn end_batch(
    to: &mut impl Write,
    opened: Opened,
    key: u64,
    delta: &[u8],
    choices: &[u8],
    v: &[u8],
    w: &[u8],
    mine: &mut [u8],
    theirs: &mut [u8],
) -> io::Result<Sessions> {
    let start = opened.start;
    let correct = opened.correct;
    let mut message = [0u8; sizes::CHECK_MESSAGE_LENGTH];
    let answer = session::receiver_answer(start.record, key, choices, v, &mut message, mine);
    let verify = session::sender_verify(correct.record, key, w, delta, &message, theirs);
    say_side(to, "  receiver", start, answer)?;
    say_side(to, "   sender", correct, verify)?;
    let receiver = answer.record;
    let sender = verify.record;
    Ok(Sessions { receiver, sender })
}

// The four steps of a batch, in their order.
fn steps(
    to: &mut impl Write,
    both: Sessions,
    b: Batch,
    roots: &[u8],
    delta: &[u8],
    siblings: &[u8],
    choices: &mut [u8],
    mine: &mut [u8],
    theirs: &mut [u8],
) -> io::Result<Sessions> {
    let size = sizes::table_length(b.blocks);
    let mut all_v = [0u8; 16384];
    let mut all_w = [0u8; 16384];
    let v = &mut all_v[0..size];
    let w = &mut all_w[0..size];
    let opened = open_batch(both, b, roots, delta, siblings, choices, v, w);
    end_batch(to, opened, b.key, delta, choices, v, w, mine, theirs)
}

// The four steps on ranges of the right lengths, and what both sides then have.
fn steps_and_pads(
    to: &mut impl Write,
    both: Sessions,
    b: Batch,
    roots: &[u8],
    delta: &[u8],
    siblings: &[u8],
    choices: &mut [u8],
    mine: &mut [u8],
    theirs: &mut [u8],
) -> io::Result<Sessions>
    requires { (8 * b.blocks ≤ length choices.old) × (receiver_pads_length b.blocks ≡ length mine.old) × (sender_pads_length b.blocks ≡ length theirs.old) }
{
    let bytes = 8 * (b.blocks as usize);
    let after = steps(to, both, b, roots, delta, siblings, choices, mine, theirs)?;
    say_pads(to, bytes, choices, mine, theirs)?;
    Ok(after)
}

// A whole batch.
fn play(
    to: &mut impl Write,
    both: Sessions,
    b: Batch,
    roots: &[u8],
    delta: &[u8],
    siblings: &[u8],
) -> io::Result<Sessions> {
    writeln!(to, "batch {}", b.number)?;
    let mut all_choices = [0u8; 128];
    let mut all_mine = [0u8; 30720];
    let mut all_theirs = [0u8; 61440];
    let choices = &mut all_choices[0..sizes::column_length(b.blocks)];
    let mine = &mut all_mine[0..sizes::receiver_pads_length(b.blocks)];
    let theirs = &mut all_theirs[0..sizes::sender_pads_length(b.blocks)];
    steps_and_pads(to, both, b, roots, delta, siblings, choices, mine, theirs)
}

// A batch whose key a seed and its number give.
fn planned(number: u32, blocks: u32, flip: u8) -> Batch
    requires { blocks ≤ 15 }
    ensures { result.blocks ≡ blocks }
{
    let key = words::load64(&cases::derived(2, number), 0);
    Batch {
        number: number as u64,
        blocks,
        key,
        flip,
    }
}

// Two sessions of width 8, opened on records that hold nothing.
fn new_sessions() -> Sessions {
    let r = Record::new(0);
    let first = session::open(r, 8);
    let second = session::open(r, 8);
    let receiver = first.record;
    let sender = second.record;
    Sessions { receiver, sender }
}

// Three honest batches; one whose correction has a bit flipped; and one that finds the sender's session closed.
fn play_all(to: &mut impl Write, roots: &[u8], delta: &[u8], siblings: &[u8]) -> io::Result<()> {
    let first = play(to, new_sessions(), planned(1, 1, 0), roots, delta, siblings)?;
    let second = play(to, first, planned(2, 15, 0), roots, delta, siblings)?;
    let third = play(to, second, planned(3, 4, 0), roots, delta, siblings)?;
    writeln!(
        to,
        "the receiver cheats: one bit of its correction is flipped"
    )?;
    let fourth = play(to, third, planned(4, 2, 1), roots, delta, siblings)?;
    writeln!(to, "a further batch")?;
    play(to, fourth, planned(5, 1, 0), roots, delta, siblings)?;
    Ok(())
}

fn main(rt: HostRuntime) -> io::Result<()> {
    let mut to = rt.stdout();
    writeln!(
        &mut to,
        "answers: 0 done, 2 wrong stage, 6 check failed; stage: 0 ready, 2 closed"
    )?;
    let all_roots = cases::derived(1, 0);
    let all_delta = cases::derived(1, 1);
    let roots = &all_roots[0..sizes::roots_length(8)];
    let delta = &all_delta[0..sizes::DELTA_LENGTH];
    let siblings = siblings_of(&mut to, roots, delta)?;
    play_all(&mut to, roots, delta, &siblings)
}
