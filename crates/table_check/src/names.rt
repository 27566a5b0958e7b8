// Tests whether the names of all endpoints differ (document 01, 'The table'). A few names are compared pair by pair. Of many,
// each sets a flag that its hash selects: a name whose flag isn't set yet differs from all before it, and only one whose flag
// is set is compared with them.
ghost use Rattle.std.specs.Prelude.{◌≡◌, ◌<◌, length};
ghost use Rattle.table_check.specs.Names.{new_at, all_different, flag_of, Flagged};

// With more names than these the flags cost less than the pairs.
const FEW: usize = 9;

// Returns whether the name at e differs from all before it. Compares by an index: with `names[..e].iter().all(..)` the check of a
// table of 4 domains and 9 endpoints took 906 instructions in place of 757.
fn is_new(names: &[u32], e: usize) -> bool
    requires { e < length names.now }
    ensures { result ≡ new_at names.now e }
{
    let name = names[e];
    for f in 0..e {
        if names[f] == name {
            return false;
        }
    }
    true
}

// Returns whether no two names are the same, by comparing pairs.
fn few_different(names: &[u32]) -> bool
    ensures { result ≡ all_different names.now }
{
    for e in 0..names.len() {
        if !is_new(names, e) {
            return false;
        }
    }
    true
}

// Returns the index of a name's flag: nine bits of the name's product with about 2^32 over the golden ratio, so that
// consecutive names get indices far apart.
fn flag_of(name: u32) -> usize
    ensures { result ≡ flag_of name }
{
    (u64::from(name) * 0x9E37_79B1 / 0x80_0000 % 512) as usize
}

// Returns whether the name at e differs from all before it. Precondition: the flags of all those are set.
#[tactic(auto, using(crate::proofs::Flags::flag_unset))]
fn is_new_by_flags(flags: &[u8; 512], names: &[u32], e: usize) -> bool
    requires flagged { Flagged names.now flags.now e }
    requires there { e < length names.now }
    ensures { result ≡ new_at names.now e }
{
    let flag = flag_of(names[e]);
    if flags[flag] == 0 {
        return true;
    }
    is_new(names, e)
}

// Returns whether no two names are the same, with the flags.
fn many_different(names: &[u32]) -> bool
    ensures { result ≡ all_different names.now }
{
    let mut flags = [0u8; 512];
    for e in 0..names.len() {
        if !is_new_by_flags(&flags, names, e) {
            return false;
        }
        let flag = flag_of(names[e]);
        flags[flag] = 1;
    }
    true
}

// Returns whether no two names are the same.
pub fn all_different(names: &[u32]) -> bool
    ensures { result ≡ all_different names.now }
{
    if names.len() <= FEW {
        few_different(names)
    } else {
        many_different(names)
    }
}
