// Bucket records copied into a lent slice. Public only for the crates above, which show what is required.
ghost use Rattle.std.specs.Prelude.{◌≤◌, ◌≡◌, length};
ghost use Rattle.terms.specs.Answer.{figures};
ghost use Rattle.terms.specs.Lent.{filled};

use terms::BucketRecord;

// Stores the records at the front of a list.
pub fn store_records(list: &mut [BucketRecord], records: &[BucketRecord])
    requires { length records.now ≤ length list.old }
    ensures { list.new ≡ filled (figures records.now) list.old }
{
    list[..records.len()].copy_from_slice(records);
}
