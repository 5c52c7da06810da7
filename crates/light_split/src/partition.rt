// A stretch of handles parted in two (specs/Partition.antt), in place.
ghost use Rattle.words.specs.Answers.{answered};
ghost use Rattle.std.specs.Prelude.{◌≡◌, ◌++◌, ◌+◌, ◌-◌, ◌≤◌, length, take};
ghost use Rattle.light_split.specs.Partition.{goes_left, goes_right};
ghost use Rattle.light_split.specs.AsCoded.Parted.{parted_count, parted_handles, parted_work};
ghost use Rattle.words.specs.Lists.{kept};
ghost use Rattle.words.specs.AsCoded.ListParts.{laid};

use super::lights::{bucket_of, centroid_ends};
use super::split::Split;
use light_bounds::bounds::Bounds3;
use words::refusals::Refusal;

#[tactic(auto, unfolding(crate::specs::Partition::goes_left))]
fn goes_left(block: &[u32], ends: Bounds3, split: Split, handle: u32) -> bool
    ensures { result ≡ goes_left block.now ends split handle }
{
    bucket_of(block, ends, split.dimension, handle) <= split.bucket
}

// The handles that go left stay, in their order, in front; those that go right are put into the work, in theirs. How
// many go left. Handles and work are lent apart, since each clause says what is left in one of them.
fn part(block: &[u32], ends: Bounds3, split: Split, handles: &mut [u32], work: &mut [u32]) -> usize
    requires { length handles.old ≤ length work.old }
    ensures value { result ≡ length (kept (goes_left block.now ends split) handles.old) }
    ensures handles_after { handles.new ≡
        laid (kept (goes_left block.now ends split) handles.old) handles.old }
    ensures work_after { work.new ≡
        laid (kept (goes_right block.now ends split) handles.old) work.old }
{
    let mut left: usize = 0;
    let mut right: usize = 0;
    // By place: handles are written into the slice that they are read from.
    for i in 0..handles.len() {
        let handle = handles[i];
        if goes_left(block, ends, split, handle) {
            handles[left] = handle;
            left += 1;
        } else {
            work[right] = handle;
            right += 1;
        }
    }
    left
}

// The work's front behind the first handles. By place: of `copy_from_slice` with a length known only here the static
// library would ask C for `memmove`, and it asks for `memcpy` and `memset` alone.
fn put_behind(handles: &mut [u32], left: usize, work: &[u32])
    requires left_in_bounds { left ≤ length handles.old }
    requires handles_in_bounds { length handles.old ≤ length work.now + left }
    ensures { handles.new ≡ take left handles.old ++
        take (length handles.old - left) work.now }
{
    for i in left..handles.len() {
        handles[i] = work[i - left];
    }
}

// Parts the stretch in place; how many handles are in front. Where all go one way, half of them. The work, at least as
// long as the stretch or ShortTray, keeps the handles that went right by their buckets.
pub fn partition_handles(
    block: &[u32],
    handles: &mut [u32],
    work: &mut [u32],
    split: Split,
) -> Result<usize, Refusal>
    ensures result_value { answered result ≡ parted_count block.now handles.old split
        (length work.old) }
    ensures handles_after { handles.new ≡
        parted_handles block.now handles.old split (length work.old) }
    ensures work_after { work.new ≡
        parted_work block.now handles.old split work.old }
{
    let n = handles.len();
    if work.len() < n {
        return Err(Refusal::ShortTray);
    }
    let ends = centroid_ends(block, handles);
    let left = part(block, ends, split, handles, work);
    put_behind(handles, left, work);
    if left == 0 || left == n {
        return Ok(n / 2);
    }
    Ok(left)
}
