// Switch recordings. `read` judges any bytes: they are turned back, with what is wrong, or they are a `Recording` of so many
// ticks, channels and changes. Of one that was read `begins` and `levels` tell where a change holds from, and what
// it sets. The functions that `read` calls ask that record j is there, since they read bytes that are no recording yet.
#![tactic(auto)]

ghost use Rattle.std.specs.Prelude.{◌≡◌, ◌&&◌, ◌||◌, ◌+◌, ◌-◌, ◌*◌, ◌^◌, ◌≤◌, ◌<◌, leb, ltb, length, MatchResult, Ok, Err};
ghost use Rattle.recording.specs.Reading.{even_of, tick as tick_of, byte_at, le16 as le16At, le32 as le32At, has_mark, duration as durationOf, channels as channelsOf, time as timeOf, levels as levelsOf, IsRecording, ReadingAs};
ghost use Rattle.recording.specs.Changes.{begins as beginsAt};
ghost use Rattle.recording.specs.Tests.{sized as sizedBy, headed as headedBy, changed as changedBy, all_changed};

// The dimensions of a recording: its length in ticks, its channels, and its changes, which are the records 1 to `changes`.
#[derive(Clone, Copy)]
pub struct Dimensions {
    pub ticks: u32,
    pub channels: u8,
    pub changes: usize,
}

// What is wrong with bytes that are no recording.
#[derive(Clone, Copy, PartialEq, Eq)]
pub enum Fault {
    Length,
    Head,
    Change,
}

// Bytes that were read as a recording, with its dimensions.
#[derive(Clone, Copy)]
pub struct Recording<'a> {
    pub bytes: &'a [u8],
    pub size: Dimensions,
    pub ghost recorded: { IsRecording bytes.now size },
}

// The two-byte marks of the records.
const HEAD: [u8; 2] = [0x44, 0x52];

const CHANGE: [u8; 2] = [0x43, 0x48];

// The 2 bytes at a place, low byte first.
#[tactic(auto, unfolding(crate::specs::Reading::le16))]
fn le16(bytes: &[u8], at: usize) -> u32
    requires { at + 1 < length bytes.now }
    ensures { (result ≡ le16At bytes.now at) × (result < 65536) × (byte_at bytes.now at < 256) }
{
    u32::from(u16::from_le_bytes([bytes[at], bytes[at + 1]]))
}

// The 4 bytes at a place, low byte first.
#[tactic(auto, unfolding(crate::specs::Reading::le16, crate::specs::Reading::le32))]
fn le32(bytes: &[u8], at: usize) -> u32
    requires { at + 3 < length bytes.now }
    ensures { result ≡ le32At bytes.now at }
{
    u32::from_le_bytes([bytes[at], bytes[at + 1], bytes[at + 2], bytes[at + 3]])
}

// Of tick n and the next one, the even one.
fn even_of(n: u32) -> u32
    requires { n ≤ 1000000 }
    ensures { result ≡ even_of n }
{
    n + n % 2
}

// The tick of a time in milliseconds. A time halfway between two ticks goes to the even one.
#[tactic(auto, unfolding(crate::specs::Reading::tick))]
fn tick(m: u32) -> u32
    requires { m ≤ 10000000 }
    ensures { result ≡ tick_of m }
{
    if m % 10 == 5 {
        return even_of(m / 10);
    }
    (m + 5) / 10
}

// Record j starts with the mark. Both are compared as one number, by what reads all others: slices would have to be cut out first.
#[tactic(auto, using(crate::proofs::Refusals::two_bytes), unfolding(crate::specs::Reading::has_mark, crate::specs::Reading::le16))]
fn has_mark(bytes: &[u8], j: usize, mark: [u8; 2]) -> bool
    requires { 8 * j + 1 < length bytes.now }
    ensures { result ≡ has_mark bytes.now j mark }
{
    le16(bytes, 8 * j) == le16(&mark, 0)
}

// Nothing is wrong with the length.
#[tactic(auto, unfolding(crate::specs::Tests::sized))]
fn sized(bytes: &[u8], largest: usize) -> bool
    ensures { result ≡ sizedBy largest bytes.now }
{
    !bytes.is_empty() && bytes.len() <= largest && bytes.len() % 8 == 0
}

// Nothing is wrong with the head.
#[tactic(auto, unfolding(crate::specs::Tests::headed))]
fn headed(bytes: &[u8]) -> bool
    requires { 8 ≤ length bytes.now }
    ensures { result ≡ headedBy bytes.now }
{
    has_mark(bytes, 0, HEAD)
        && (10..=10_000_000).contains(&le32(bytes, 2))
        && (1..=16).contains(&bytes[6])
        && bytes[7] == 0
}

// The first change may come at any time, a later one only after the change before it.
fn rises(bytes: &[u8], j: usize) -> bool
    requires { 8 * j + 7 < length bytes.now }
    ensures { result ≡ (leb j 1 || ltb (timeOf bytes.now (j - 1)) (timeOf bytes.now j)) }
{
    j <= 1 || le32(bytes, 8 * (j - 1) + 2) < le32(bytes, 8 * j + 2)
}

// Nothing is wrong with change j, unless it comes too late. Its levels are below `bits`, one bit for each channel. The times are asked last: in the
// order of the record the loop over changes was measured to take twice as long, by where its jumps come to stand.
#[tactic(auto, using(crate::proofs::Refusals::quiet_below), unfolding(crate::specs::Tests::changed))]
fn changed(bytes: &[u8], j: usize, bits: u32) -> bool
    requires { (8 * j + 7 < length bytes.now) × (bits ≡ 2 ^ channelsOf bytes.now) }
    ensures { changedBy bytes.now j ≡ (result && ltb (timeOf bytes.now j) (durationOf bytes.now)) }
{
    has_mark(bytes, j, CHANGE) && le16(bytes, 8 * j + 6) < bits && rises(bytes, j)
}

// Nothing is wrong with the changes 1 to `changes`.
#[tactic(auto, using(crate::proofs::Refusals::times_rise), unfolding(crate::specs::Tests::all_changed))]
fn all_changed(bytes: &[u8], changes: usize, duration: u32, bits: u32) -> bool
    requires { (8 * changes + 7 < length bytes.now) × (duration ≡ durationOf bytes.now) × (bits ≡ 2 ^ channelsOf bytes.now) }
    ensures { result ≡ all_changed bytes.now changes }
{
    if changes == 0 {
        return true;
    }
    // Times rise, so the last one is the latest.
    if duration <= le32(bytes, 8 * changes + 2) {
        return false;
    }
    for j in 1..changes + 1 {
        if !changed(bytes, j, bits) {
            return false;
        }
    }
    true
}

// Reads a recording of at most `largest` bytes. The length is judged first, then the head, then the changes.
#[tactic(auto, using(crate::proofs::Refusals::told_by_tests))]
pub fn read(bytes: &[u8], largest: usize) -> Result<Recording<'_>, Fault>
    ensures { MatchResult result (λ r. (r.bytes.now ≡ bytes.now) × ReadingAs largest bytes.now (Ok r.size)) (λ e. ReadingAs largest bytes.now (Err e)) }
{
    if !sized(bytes, largest) {
        return Err(Fault::Length);
    }
    if !headed(bytes) {
        return Err(Fault::Head);
    }
    let changes = bytes.len() / 8 - 1;
    let duration = le32(bytes, 2);
    let channels = bytes[6];
    if !all_changed(bytes, changes, duration, 1 << channels) {
        return Err(Fault::Change);
    }
    let size = Dimensions {
        ticks: tick(duration),
        channels,
        changes,
    };
    Ok(Recording { bytes, size })
}

// The levels that change j sets, a bit for each channel.
pub fn levels_of(bytes: &[u8], j: usize) -> u32
    requires { 8 * j + 7 < length bytes.now }
    ensures { (result ≡ levelsOf bytes.now j) × (result < 65536) }
{
    le16(bytes, 8 * j + 6)
}

impl<'a> Recording<'a> {
    // The tick from which change j holds: 0 for j = 0, and the end of the recording after the last change.
    #[tactic(auto, using(crate::proofs::Changes::where_begins), unfolding(crate::specs::Changes::begins))]
    pub fn begins(&self, j: usize) -> u32
        ensures { result ≡ beginsAt self.now.bytes.now j }
    {
        if j == 0 {
            return 0;
        }
        if self.size.changes < j {
            return self.size.ticks;
        }
        tick(le32(self.bytes, 8 * j + 2))
    }

    // The levels that change j sets. That there is a change j is asked of the call: its number says nothing without the recording.
    pub fn levels(&self, j: usize) -> u32
        requires { j ≤ self.now.size.changes }
        ensures { (result ≡ levelsOf self.now.bytes.now j) × (result < 65536) }
    {
        levels_of(self.bytes, j)
    }
}
