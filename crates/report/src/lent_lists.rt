// The list of a plan's buckets.
use crate::{record, words};
use samples::lent_records::{ENTRIES, are_kept};
use terms::BucketRecord;

// The buckets, and whether every record after them is as it was filled beforehand.
pub fn list(rt: &impl Print, list: [BucketRecord; ENTRIES], buckets: usize) {
    print_buckets(rt, list, buckets);
    kept(rt, are_kept(list, buckets));
}

// The first three buckets and the last.
fn print_buckets(rt: &impl Print, list: [BucketRecord; ENTRIES], buckets: usize) {
    for (i, &x) in list.iter().take(buckets).enumerate() {
        if (i < 3) | (i + 1 == buckets) {
            words(rt, b",");
            record(rt, x);
        }
    }
}

// The end of a line: whether what was lent is as it was, but for what was filled.
pub fn kept(rt: &impl Print, is_kept: bool) {
    if is_kept {
        words(rt, b", kept\n");
    } else {
        words(rt, b", touched\n");
    }
}
