//! Laws about answers. A function here does nothing: its contract is the law.
ghost use Rattle.std.specs.Prelude.{◌≡◌, ℕ, List, codes, Some, Ok};
ghost use Rattle.bf_oid.specs.declared.object.Oid.{Oid};
ghost use Rattle.bf_cert.specs.declared.cert.Cert.{Cert};
ghost use Rattle.bf_cert.specs.Certificates.{Holds};
ghost use Rattle.bf_reading.specs.Reading.{behind};
ghost use Rattle.bf_claims.specs.Reading.{read_file};
ghost use Rattle.bf_claims.specs.Standing.{IsAnswer};

/// The certificate of a file that is taken, an answer or not, holds.
pub fn accepted_files_hold()
    ensures { (names : List Oid) (graph : List (List ℕ)) (bytes : List ℕ) (cert : Cert) →
        read_file names graph bytes ≡ Ok cert → Holds graph cert }
{}

/// Below the sum of an answer that is taken stand the lines of its head, and those of its certificate, of which the head
/// claims the bad commit and exactly the good ones.
pub fn accepted_answers_stand()
    ensures { (names : List Oid) (graph : List (List ℕ)) (bytes text : List ℕ) (cert : Cert) →
        behind (codes "farmdawn-answer 1\n") bytes ≡ Some text →
        read_file names graph bytes ≡ Ok cert → IsAnswer names graph bytes cert }
{}
