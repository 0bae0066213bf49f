// What a label's limits give, so that no pass test looks at single bits: the widest limit of the bits that are not chosen yet, and, for each
// label of an axis, the widest limit of the bits that are 1 in it. An exclusive or with the best label's bits says which bits of a node are
// opposite to that label's.
#![tactic(auto)]

ghost use Rattle.std.specs.Prelude.{◌≡◌, ◌*◌, ◌<◌, ◌≤◌, ◌^◌, length};
ghost use Rattle.model.specs.Block.{most_streams, most_width, most_bits};
ghost use Rattle.metric.specs.Parts.{axis_width, span, filled};
ghost use Rattle.limits.specs.Reach.{limit_in, limits_size, StandsFor, StreamAsked, axis_reach, axes_in, stream_in, reaches_in, stream_reach, chosen_reach};

use axes::{double, labels};
use metric::{AXES, sized};

// The places of the array of limits: first a label's bits, then, from here on, the widest limits of the first streams;
pub const FIRST: usize = metric::LABEL_BITS;

// then the entries of the axes,
pub const ENTRIES: usize = 32;

// as many for a stream as its two axes have labels at most.
pub const STREAM: usize = 2 * SPAN;

// In calls it is a slice, not an array of so many: it is a part of the minima of hypotheses, lent as it stands.
pub const LIMITS: usize = ENTRIES + 4 * STREAM;

// What `fill` is told where the limits of every stream are changed.
pub const ALL: u32 = 4294967295;

// How many labels the widest axis has.
const SPAN: usize = AXES / 2;

// The entries of an axis, by the limits of its bits: for each label the widest limit of the bits that are 1 in it. The label whose bits are all
// 0 has none; its entry is doubled for each bit from the last one on.
fn fill_entry_limits(own: &[u64], entries: &mut [u64])
    requires { (length own.now ≤ axis_width) × (span ≤ length entries.old) }
    ensures { entries.new ≡ filled (axis_reach (limit_in own.now) 0 (length own.now)) (2 ^ length own.now) entries.old }
{
    let w = own.len();
    entries[0] = 0;
    for b in 0..w {
        let limit = own[w - 1 - b];
        double(entries, labels(b), move |widest: u64| widest.max(limit));
    }
}

// The same; an axis of 64-QAM has three bits and one of 16-QAM two, which the compiler is told here.
fn fill_axis_limits(own: &[u64], entries: &mut [u64])
    requires { (length own.now ≤ axis_width) × (span ≤ length entries.old) }
    ensures { entries.new ≡ filled (axis_reach (limit_in own.now) 0 (length own.now)) (2 ^ length own.now) entries.old }
{
    sized::<3, 2, _, _>(own.len(), &mut |w| fill_entry_limits(&own[..w], entries))
}

// The widest limit of those of stream j's bits that are 1 in a symbol.
pub fn stream_reach(q: usize, limits: &[u64], j: usize, symbol: usize) -> u64
    requires { (q ≤ most_width) × (j < most_streams) × (symbol < 2 ^ q) × (length limits.now ≡ limits_size) }
    ensures { result ≡ stream_reach q limits.now j symbol }
{
    let at = ENTRIES + j * STREAM;
    let re = limits[at + (symbol >> (q / 2))];
    let im = limits[at + SPAN + (symbol & (labels(q / 2) - 1))];
    re.max(im)
}

// The entries of stream j's two axes, where one of its limits is changed since they were made; `changed` is then not 0.
fn fill_axes(q: usize, limits: &mut [u64], j: usize, changed: usize)
    requires { StreamAsked q limits.old j changed }
    ensures { limits.new ≡ axes_in q limits.old j }
{
    if changed == 0 {
        return;
    }
    let (own, entries) = limits.split_at_mut(ENTRIES);
    let (re, im) = own[j * q..(j + 1) * q].split_at(q - q / 2);
    let at = j * STREAM;
    fill_axis_limits(re, &mut entries[at..at + SPAN]);
    fill_axis_limits(im, &mut entries[at + SPAN..at + STREAM]);
}

// What the limits of stream j's bits give: the entries of its two axes, and the widest limit of the streams up to it.
fn fill_stream(q: usize, limits: &mut [u64], j: usize, changed: usize)
    requires { StreamAsked q limits.old j changed }
    ensures { limits.new ≡ stream_in q limits.old j }
{
    fill_axes(q, limits, j, changed);
    let own = stream_reach(q, limits, j, labels(q) - 1);
    limits[FIRST + (j + 1)] = limits[FIRST + j].max(own);
}

// What the limits of m streams' bits give, behind them. The entries of a stream whose symbol in `changed` is 0 must be right already.
pub fn fill(m: usize, q: usize, limits: &mut [u64], changed: u32)
    requires { (m ≤ most_streams) × (q ≤ most_width) × (m * q ≤ most_bits) × (length limits.old ≡ limits_size)
        × StandsFor m q changed limits.old }
    ensures { limits.new ≡ reaches_in q limits.old m }
{
    limits[FIRST] = 0;
    for j in 0..m {
        let symbol = metric::symbol_at(changed, q, (m - (j + 1)) * q);
        fill_stream(q, limits, j, symbol);
    }
}

// The widest limit of those bits of the streams from `level` on that are 1 in `bits`.
pub fn chosen(m: usize, q: usize, limits: &[u64], level: usize, bits: u32) -> u64
    requires { (m ≤ most_streams) × (q ≤ most_width) × (level ≤ m) × (length limits.now ≡ limits_size) }
    ensures { result ≡ chosen_reach m q limits.now level bits }
{
    let mut widest: u64 = 0;
    for j in level..m {
        let symbol = metric::symbol_at(bits, q, (m - (j + 1)) * q);
        widest = widest.max(stream_reach(q, limits, j, symbol));
    }
    widest
}
