//! What the types of a hint's parts say of their sizes. Nothing here does anything when it runs.
ghost use Rattle.std.specs.Prelude.{◌≡◌, ◌^◌, ◌<◌, All, length};
ghost use Rattle.bt_tree.specs.Limits.{digest_length};
ghost use Rattle.bt_hashreq.specs.Key.{IsKey};
ghost use Rattle.bt_resume.specs.Hint.{IsTyped};

use bt_hashreq::HashKey;
use bt_resume::Hint;
use bt_tree::Hash32;

/// Numbers have four bytes, and roots and digests 32.
pub(crate) fn has_sizes(hint: &Hint)
    ensures { IsTyped hint.now }
{
    match hint {
        Hint::Proof(key, digests) => {
            has_key_sizes(*key);
            have_digest_sizes(digests.as_slice());
        }
        Hint::Marks { file, first, count } => {
            has_number_size(*file);
            has_number_size(*first);
            has_number_size(*count);
        }
    }
}

fn has_key_sizes(_key: HashKey)
    ensures { IsKey _key }
{}

fn have_digest_sizes(_digests: &[Hash32])
    ensures { All (λ digest. length digest ≡ digest_length) _digests.now }
{}

fn has_number_size(_number: u32)
    ensures { _number < 2 ^ 32 }
{}
