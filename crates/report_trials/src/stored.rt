//! Books, worked by hand from the rules, with the policy that they are of.

/// Two banks and two oil firms; the fourth process has no home.
pub(crate) const BANKS_AND_OIL: &str = r#"version = 1
[[class]]
name = "banks"
datasets = ["alpha", "beta"]
[[class]]
name = "oil"
datasets = ["crude", "delta"]
[[process]]
name = "a0"
home = "alpha"
[[process]]
name = "b0"
home = "beta"
[[process]]
name = "c0"
home = "crude"
[[process]]
name = "n0"
"#;

/// The second process is at home at the rival of what the first would send to all.
pub(crate) const BROADCAST: &str = "book 1
post 0 0 bcast 0 int32 2 gives 2 as alpha passed
post 1 0 bcast 0 int32 2 gives 0 as none passed
post 2 0 bcast 0 int32 2 gives 0 as none passed
post 3 0 bcast 0 int32 2 gives 0 as none passed
verdict 0 0 denied simple b0 alpha
end 5
";

/// The same with another verdict, its fifth entry.
pub(crate) const UNSOUND: &str = "book 1
post 0 0 bcast 0 int32 2 gives 2 as alpha passed
post 1 0 bcast 0 int32 2 gives 0 as none passed
post 2 0 bcast 0 int32 2 gives 0 as none passed
post 3 0 bcast 0 int32 2 gives 0 as none passed
verdict 0 0 granted
end 5
";

/// Who is at home at a bank may not write as `public`.
pub(crate) const GATHERED_AS_PUBLIC: &str = "book 1
post 3 0 gatherv 3 int32 gives 0 as none passed
post 2 0 gatherv 3 int32 gives 1 as public barred
post 1 0 gatherv 3 int32 gives 1 as crude barred
post 0 0 gatherv 3 int32 gives 1 as alpha passed
verdict 0 0 denied star b0 crude
end 5
";

/// The root held nothing, and would get the data of both banks. It writes of an oil firm first.
pub(crate) const GATHERED_FROM_RIVALS: &str = "book 1
post 3 0 gather 3 int32 1 gives 1 as crude passed
post 2 0 gather 3 int32 1 gives 1 as crude passed
post 1 0 gather 3 int32 1 gives 1 as beta passed
post 0 0 gather 3 int32 1 gives 1 as alpha passed
verdict 0 0 denied simple n0 beta
end 5
";

/// The first and the fourth process meet on communicator 1, the second and the fourth on 2. What
/// the fourth gets of the one bank keeps it from the other, and from writing for it.
pub(crate) const TWO_TABLES: &str = "book 1
post 0 0 split 0 0 gives 0 as none passed
post 1 0 split undefined 0 gives 0 as none passed
post 2 0 split undefined 0 gives 0 as none passed
post 3 0 split 0 0 gives 0 as none passed
verdict 0 0 made 1 1
post 0 0 split undefined 0 gives 0 as none passed
post 1 0 split 0 0 gives 0 as none passed
post 2 0 split undefined 0 gives 0 as none passed
post 3 0 split 0 0 gives 0 as none passed
verdict 0 1 made 2 1
post 3 1 bcast 0 int32 1 gives 0 as none passed
post 0 1 bcast 0 int32 1 gives 1 as alpha passed
verdict 1 0 granted
post 1 2 bcast 0 int32 1 gives 1 as beta passed
post 3 2 bcast 0 int32 1 gives 0 as none passed
verdict 2 0 denied simple n0 beta
post 3 1 bcast 1 int32 1 gives 1 as beta barred
post 0 1 bcast 1 int32 1 gives 0 as none passed
verdict 1 1 denied star n0 beta
end 19
";

/// The first and the fourth process meet on communicator 1, where the fourth waits for the first.
/// Of all, two have posted for the second instance, and one of these for the third.
pub(crate) const STANDING: &str = "book 1
post 0 0 split 0 0 gives 0 as none passed
post 1 0 split undefined 0 gives 0 as none passed
post 2 0 split undefined 0 gives 0 as none passed
post 3 0 split 0 0 gives 0 as none passed
verdict 0 0 made 1 1
post 3 1 bcast 0 int32 1 gives 0 as none passed
post 1 0 bcast 0 int32 1 gives 0 as none passed
post 2 0 bcast 0 int32 1 gives 0 as none passed
post 1 0 bcast 1 int32 1 gives 1 as beta passed
end 9
";
