//! An auction that was read from a set-up document.
ghost use Rattle.std.specs.Prelude.{◌≡◌, [], List, ℕ, IfErr, IfOk, Ok};
ghost use Rattle.clock_terms.specs.Faults.{IsRefusal};
ghost use Rattle.clock_front.specs.Fronts.{StandsForTexts};
ghost use Rattle.clock_setup.specs.SetupDocument.{document_setup};
ghost use Rattle.clock_console.specs.Prices.{read_in};
ghost use Rattle.clock_files.specs.Serving.{IsReadFrom};

use clock_console::{Fault, setup_in};
use clock_device::Text;
use clock_front::Front;
use clock_journal::{Link, digest_of};
use clock_queue::Woken;
use clock_server::ReplayedAuction;
use std::alloc::Global;

/// The auction of a set-up document, before its first text, and the digest of this document.
#[derive(Drop)]
pub struct ReadAuction {
    pub auction: ReplayedAuction<Woken>,
    pub digest: Link,
    ghost fresh: { StandsForTexts [] auction.front },
    ghost read: { ∥ ((document : List ℕ) × IsReadFrom document auction.front.setup digest) ∥₁ },
}

/// Reads the auction of a set-up document.
pub fn read_auction(alloc: Global, document: Text) -> Result<ReadAuction, Fault>
    ensures read { IfOk result
        (λ read. IsReadFrom document read.auction.front.setup read.digest) }
    ensures err { IfErr result (IsRefusal Fault.Memory (read_in (document_setup document))) }
{
    let digest = digest_of(document.as_slice());
    let front = front_in(alloc, document)?;
    let auction = ReplayedAuction { front };
    Ok(ReadAuction { auction, digest })
}

/// Makes a front from a set-up document, before its first text.
pub fn front_in(alloc: Global, document: Text) -> Result<Front<Woken>, Fault>
    ensures stands { IfOk result (StandsForTexts []) }
    ensures setup { IfOk result (λ front. document_setup document ≡ Ok front.setup) }
    ensures err { IfErr result (IsRefusal Fault.Memory (read_in (document_setup document))) }
{
    let setup = setup_in(alloc, document.as_slice())?;
    drop(document);
    Ok(Front::new(alloc, setup, Woken)?)
}
