//! What an accepted certificate shows.

ghost use Rattle.std.specs.Prelude.{◌≡◌, ◌⊎◌, Err, IfErr, IfOk, IsOk, OnOk};
ghost use Rattle.sok_entry.specs.declared.fault.CertFault.TheVariants as cert;
ghost use Rattle.sok_cert.specs.Closed.{IsTrueOf};

use sok_board::board::Board;
use sok_entry::claim::Claim;
use sok_entry::fault::CertFault;
use sok_rules::level::Level;
use std::alloc::Global;
use std::marker::Model;

/// What an accepted certificate shows: a claim that is true of its level. Only `check` and
/// `Ended::judge` make one. The contracts see it as the level's rows and the claim.
#[derive(Drop)]
pub struct Accepted {
    level: Level,
    claim: Claim,
}

impl Model for Accepted {
    ghost use Rattle.sok_cert.specs.Closed.{IsTrueOf};
    ghost use Rattle.sok_cert.specs.LevelClaims.{LevelClaim};

    ghost Value = { LevelClaim };

    ghost view = { λ accepted. record { rows = accepted.level; claim = accepted.claim } };

    ghost invariant = { λ accepted. IsTrueOf accepted.level accepted.claim };
}

impl Accepted {
    /// Returns the claim, which is true of the level: no solution has fewer pushes than it says, or
    /// there is no solution.
    pub fn claim(&self) -> Claim
        ensures claim { result ≡ self.now.claim }
        ensures shown { IsTrueOf self.now.rows result }
    {
        self.claim
    }

    /// Returns the accepted claim about the level of `board`, if `judged` is no fault. Errors: the
    /// fault in `judged`; `Memory`.
    pub(crate) fn of(
        alloc: Global,
        board: &Board,
        claim: Claim,
        judged: Result<(), CertFault>,
    ) -> Result<Accepted, CertFault>
        requires { IfOk judged (λ _. IsTrueOf board.now.rows claim) }
        ensures made { IfOk result
            (λ accepted. accepted ≡ record { rows = board.now.rows; claim = claim }) }
        ensures judged { OnOk result (IsOk judged) }
        ensures fault { IfErr result (λ fault. (fault ≡ cert.Memory) ⊎ (judged ≡ Err fault)) }
    {
        judged?;
        let level = board.level().copy(alloc)?;
        Ok(Accepted { level, claim })
    }
}
