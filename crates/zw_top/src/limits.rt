//! The limits of a folder and its tree.
ghost use Rattle.std.specs.Prelude.{◌≡◌, ◌<◌, ◌^◌};
ghost use Rattle.zw_def_thin.specs.Limit.{most_listed, most_files, most_file_bytes, most_tree_bytes};

/// How many paths a folder may list.
#[tactic(auto, unfolding(zw_def_thin::specs::Limit::most_listed))]
pub(crate) fn listed_paths() -> usize
    ensures value { result ≡ most_listed }
    ensures small { result < 2 ^ 32 }
{
    1_000_000
}

/// How many files a tree may have.
#[tactic(auto, unfolding(zw_def_thin::specs::Limit::most_files))]
pub(crate) fn files() -> usize
    ensures value { result ≡ most_files }
{
    100_000
}

/// How many bytes a file may have.
#[tactic(auto, unfolding(zw_def_thin::specs::Limit::most_file_bytes))]
pub(crate) fn file_bytes() -> usize
    ensures value { result ≡ most_file_bytes }
    ensures small { result < 2 ^ 32 }
{
    1_048_576
}

/// How many bytes the files of a tree may have together.
#[tactic(auto, unfolding(zw_def_thin::specs::Limit::most_tree_bytes))]
pub(crate) fn tree_bytes() -> u64
    ensures value { result ≡ most_tree_bytes }
    ensures small { result < 2 ^ 32 }
{
    268_435_456
}
