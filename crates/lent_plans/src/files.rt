// The plan file read into a lent list of bucket records.
ghost use Rattle.std.specs.Prelude.{◌≡◌, length};
ghost use Rattle.terms.specs.Lent.{filled};
ghost use Rattle.terms.specs.Refusals.{says};
ghost use Rattle.plan_file.specs.Plan.{buckets_of, recorded_figures, read_plan, VeryPlan};

use plan_file::PlanFigures;
use plan_file::reading::read_records;
use record_list::copies::store_records;
use terms::{BucketRecord, Refusal};

// Reads a plan from any bytes: T, the number of buckets and the cost; its records fill the front of
// the lent list. Or refusal 1 to 5, or 6 (a list with fewer entries than buckets), and the list is
// as it was. Bytes that are read are the very file that writing those figures gives.
pub fn read_plan(bytes: &[u8], list: &mut [BucketRecord]) -> Result<PlanFigures, Refusal>
    ensures { (says result ≡ recorded_figures (read_plan (length list.old) bytes.now))
        × (list.new ≡ filled (buckets_of (read_plan (length list.old) bytes.now)) list.old)
        × VeryPlan bytes.now (read_plan (length list.old) bytes.now) }
{
    let found = read_records(bytes, list.len())?;
    store_records(list, found.buckets.as_slice());
    Ok(found.figures())
}
