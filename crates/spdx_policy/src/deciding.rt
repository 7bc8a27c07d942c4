// What a policy says of a requirement, by the licences under which it may be had.

ghost use Rattle.std.specs.Prelude.{◌≡◌, ◌&&◌, IfOk, map, not};
ghost use Rattle.std.specs.List.{position, list_any, list_all};
ghost use Rattle.spdx_requirement.specs.Items.{requirement_of};
ghost use Rattle.spdx_policy.specs.Decisions as spec;
ghost use Rattle.spdx_policy.specs.Growing.{GrowsRight};
ghost use Rattle.spdx_policy.specs.Named.{named_row};
ghost use Rattle.spdx_policy.specs.Rules as rules;

use crate::decision::{Decision, Entry, Flag};
use crate::named::Named;
use crate::policy::Policy;
use spdx_requirement::requirement::LicenseReq;
use std::alloc::{AllocError, Global};

impl<'c> Policy<'c> {
    /// What the policy says of a requirement, of a package for which these exceptions hold.
    ///
    /// A requirement stands for the licences under which it may be had: the one that it means
    /// (`spdx_licensee::sense`), or with a mark or `-or-later` that one and its listed later
    /// versions, each with its addition. An entry stands for such licences too. One of them is denied
    /// by `deny` or `deny-if`; what is denied without an addition is denied with any, but for a pair
    /// that `allow` or an exception that holds names. The requirement is allowed if one of them is
    /// allowed and not denied, by the first entry that allows such a one, of the exceptions in the
    /// order given, then of `allow`, then of `allow-if`. It is denied if each of them is, by the first
    /// entry that denies the first of them.
    ///
    /// Takes time by the number of entries, and with a mark by the length of the list.
    ///
    /// # Errors
    ///
    /// Memory was refused.
    pub fn decide(
        &self,
        alloc: Global,
        exceptions: &[usize],
        req: &LicenseReq<'c>,
    ) -> Result<Decision, AllocError>
        ensures exact { IfOk result (λ d.
            d ≡ spec.decision_of self.now exceptions.now (requirement_of req.now)) }
        ensures allowed { IfOk result (λ d. spec.is_allowed d ≡ spec.has_free_way self.now
            exceptions.now (spec.ways_of self.now (requirement_of req.now))) }
        ensures denied { IfOk result (λ d. spec.is_denied d ≡ spec.has_denied_ways self.now
            exceptions.now (spec.ways_of self.now (requirement_of req.now))) }
        ensures grows { GrowsRight self.now exceptions.now }
    {
        let ways = self.ways(alloc, req)?;
        Ok(self.decide_among(exceptions, ways.as_slice()))
    }

    // What the policy says of licences of which one will do.
    fn decide_among(&self, exceptions: &[usize], ways: &[LicenseReq<'_>]) -> Decision
        ensures { result ≡ spec.decision_among self.now exceptions.now
            (map requirement_of ways.now) }
    {
        if let Some(entry) = self.allowed_among(exceptions, ways) {
            return Decision::Allowed(entry);
        }
        match self.denied_among(exceptions, ways) {
            Some(entry) => Decision::Denied(entry),
            None => Decision::Open,
        }
    }

    // The first entry that allows one of them that nothing denies.
    fn allowed_among(&self, exceptions: &[usize], ways: &[LicenseReq<'_>]) -> Option<Entry>
        ensures { result ≡ spec.allowed_among self.now exceptions.now
            (map requirement_of ways.now) }
    {
        if let Some(entry) = self.exempted_by(exceptions, ways) {
            return Some(entry);
        }
        match self.first_freeing(exceptions, ways, &self.allow) {
            Some(place) => Some(Entry::Allow(place)),
            None => Some(Entry::AllowIf(self.first_flag(exceptions, ways)?)),
        }
    }

    // The first entry of the exceptions that allows one of them that nothing denies.
    fn exempted_by(&self, exceptions: &[usize], ways: &[LicenseReq<'_>]) -> Option<Entry>
        ensures { result ≡ spec.exempted_by self.now exceptions.now exceptions.now
            (map requirement_of ways.now) }
    {
        for table in exceptions {
            if let Some(place) = self.place_in(*table, exceptions, ways) {
                return Some(Entry::Exception(*table, place));
            }
        }
        None
    }

    // The first entry of an exception that allows one of them that nothing denies.
    fn place_in(&self, table: usize, exceptions: &[usize], ways: &[LicenseReq<'_>]) -> Option<usize>
        ensures { result ≡ position (spec.frees self.now exceptions.now
            (map requirement_of ways.now)) (rules.allowed_by self.now table) }
    {
        let names = self.exempting.get(table)?;
        self.first_freeing(exceptions, ways, names)
    }

    // The first of the entries that allows one of them that nothing denies.
    fn first_freeing(
        &self,
        exceptions: &[usize],
        ways: &[LicenseReq<'_>],
        names: &[Named<'_>],
    ) -> Option<usize>
        ensures { result ≡ position (spec.frees self.now exceptions.now
            (map requirement_of ways.now)) (map named_row names.now) }
    {
        self.freeing_place(exceptions, ways, names)
    }

    fn freeing_place(
        &self,
        exceptions: &[usize],
        ways: &[LicenseReq<'_>],
        names: &[Named<'_>],
    ) -> Option<usize>
        ensures { result ≡ position (λ n. spec.frees self.now exceptions.now
            (map requirement_of ways.now) (named_row n)) names.now }
    {
        names
            .iter()
            .position(|name| self.frees(exceptions, ways, name))
    }

    /// Whether the entry stands for one of them that nothing denies.
    pub(crate) fn frees(
        &self,
        exceptions: &[usize],
        ways: &[LicenseReq<'_>],
        name: &Named<'_>,
    ) -> bool
        ensures { result ≡ spec.frees self.now exceptions.now (map requirement_of ways.now)
            (named_row name.now) }
    {
        self.is_freed(exceptions, ways, name)
    }

    fn is_freed(&self, exceptions: &[usize], ways: &[LicenseReq<'_>], name: &Named<'_>) -> bool
        ensures { result ≡ list_any (λ w. spec.names (requirement_of w) (named_row name.now)
            && not (spec.is_denied_way self.now exceptions.now (requirement_of w))) ways.now }
    {
        ways.iter().any(|way| name.names(way) && !self.is_denied_way(exceptions, way))
    }

    // The first flag that allows one of them that nothing denies.
    fn first_flag(&self, exceptions: &[usize], ways: &[LicenseReq<'_>]) -> Option<usize>
        ensures { result ≡ position (spec.flag_frees self.now exceptions.now
            (map requirement_of ways.now)) self.now.allow_if }
    {
        self.allow_if
            .iter()
            .position(|flag| self.flag_frees(exceptions, ways, *flag))
    }

    // Whether the flag allows one of them that nothing denies.
    fn flag_frees(&self, exceptions: &[usize], ways: &[LicenseReq<'_>], flag: Flag) -> bool
        ensures { result ≡ spec.flag_frees self.now exceptions.now (map requirement_of ways.now)
            flag }
    {
        self.is_freed_by(exceptions, ways, flag)
    }

    fn is_freed_by(&self, exceptions: &[usize], ways: &[LicenseReq<'_>], flag: Flag) -> bool
        ensures { result ≡ list_any (λ w. spec.flag_allows (requirement_of w) flag
            && not (spec.is_denied_way self.now exceptions.now (requirement_of w))) ways.now }
    {
        ways.iter().any(|way| flag.allows(way) && !self.is_denied_way(exceptions, way))
    }

    // Where each of them is denied, the first entry that denies the first of them.
    fn denied_among(&self, exceptions: &[usize], ways: &[LicenseReq<'_>]) -> Option<Entry>
        ensures { result ≡ spec.denied_among self.now exceptions.now
            (map requirement_of ways.now) }
    {
        if !self.are_denied(exceptions, ways) {
            return None;
        }
        self.denied_by(exceptions, ways.first()?)
    }

    // Whether each of them is denied.
    fn are_denied(&self, exceptions: &[usize], ways: &[LicenseReq<'_>]) -> bool
        ensures { result ≡ list_all (spec.is_denied_way self.now exceptions.now)
            (map requirement_of ways.now) }
    {
        self.is_each_denied(exceptions, ways)
    }

    fn is_each_denied(&self, exceptions: &[usize], ways: &[LicenseReq<'_>]) -> bool
        ensures { result ≡ list_all (λ w. spec.is_denied_way self.now exceptions.now
            (requirement_of w)) ways.now }
    {
        ways.iter().all(|way| self.is_denied_way(exceptions, way))
    }

    /// Whether some entry denies a licence with its addition.
    pub(crate) fn is_denied_way(&self, exceptions: &[usize], way: &LicenseReq<'_>) -> bool
        ensures { result ≡ spec.is_denied_way self.now exceptions.now (requirement_of way.now) }
    {
        self.denied_by(exceptions, way).is_some()
    }

    // The first entry that denies a licence with its addition.
    fn denied_by(&self, exceptions: &[usize], way: &LicenseReq<'_>) -> Option<Entry>
        ensures { result ≡ spec.denied_by self.now exceptions.now (requirement_of way.now) }
    {
        let exposed = self.is_exposed(exceptions, way);
        self.denied_where(exposed, way)
    }

    // The same, where what denies the licence alone counts or not.
    fn denied_where(&self, exposed: bool, way: &LicenseReq<'_>) -> Option<Entry>
        ensures { result ≡ spec.denied_where exposed self.now (requirement_of way.now) }
    {
        match first_denying(&self.deny, exposed, way) {
            Some(place) => Some(Entry::Deny(place)),
            None => Some(Entry::DenyIf(first_flag_denying(&self.deny_if, exposed, way)?)),
        }
    }

    // Whether what denies the licence alone denies it with its addition.
    fn is_exposed(&self, exceptions: &[usize], way: &LicenseReq<'_>) -> bool
        ensures { result ≡ spec.is_exposed self.now exceptions.now (requirement_of way.now) }
    {
        match &way.addition {
            Some(_) => !self.is_named(exceptions, way),
            None => true,
        }
    }

    // Whether `allow`, or an exception that holds, stands for just that.
    fn is_named(&self, exceptions: &[usize], way: &LicenseReq<'_>) -> bool
        ensures { result ≡ spec.is_named self.now exceptions.now (requirement_of way.now) }
    {
        are_named(&self.allow, way) || self.is_exempted(exceptions, way)
    }

    // Whether one of the exceptions stands for just that.
    fn is_exempted(&self, exceptions: &[usize], way: &LicenseReq<'_>) -> bool
        ensures { result ≡ list_any (λ table. list_any (spec.names (requirement_of way.now))
            (rules.allowed_by self.now table)) exceptions.now }
    {
        exceptions
            .iter()
            .any(|table| self.is_exempted_in(*table, way))
    }

    // Whether an exception stands for just that.
    fn is_exempted_in(&self, table: usize, way: &LicenseReq<'_>) -> bool
        ensures { result ≡ list_any (spec.names (requirement_of way.now))
            (rules.allowed_by self.now table) }
    {
        match self.exempting.get(table) {
            Some(names) => are_named(names, way),
            None => false,
        }
    }
}

// Whether one of the entries stands for just that.
fn are_named(names: &[Named<'_>], way: &LicenseReq<'_>) -> bool
    ensures { result ≡ list_any (spec.names (requirement_of way.now)) (map named_row names.now) }
{
    is_named_among(names, way)
}

fn is_named_among(names: &[Named<'_>], way: &LicenseReq<'_>) -> bool
    ensures { result ≡ list_any (λ n. spec.names (requirement_of way.now) (named_row n))
        names.now }
{
    names.iter().any(|name| name.names(way))
}

// The first of the entries that denies a licence with its addition.
fn first_denying(names: &[Named<'_>], exposed: bool, way: &LicenseReq<'_>) -> Option<usize>
    ensures { result ≡ position (spec.entry_denies exposed (requirement_of way.now))
        (map named_row names.now) }
{
    denying_place(names, exposed, way)
}

fn denying_place(names: &[Named<'_>], exposed: bool, way: &LicenseReq<'_>) -> Option<usize>
    ensures { result ≡ position (λ n. spec.entry_denies exposed (requirement_of way.now)
        (named_row n)) names.now }
{
    names.iter().position(|name| name.denies(exposed, way))
}

// The first of the flags that denies a licence with its addition.
fn first_flag_denying(flags: &[Flag], exposed: bool, way: &LicenseReq<'_>) -> Option<usize>
    ensures { result ≡ position (spec.flag_denies exposed (requirement_of way.now)) flags.now }
{
    flags.iter().position(|flag| flag.denies(exposed, way))
}
