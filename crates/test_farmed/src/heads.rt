//! What `check` answers to answers over the fork, by what stands in them before a certificate that holds.
use crate::answers::{CALLED_BAD, CALLED_GOOD, FIRST, WORD};
use crate::checked::{BAD, END, GOOD, REACH, VERSION, is_refused};
use crate::streams::FORK;
use std::test::Fail;

/// The lines of heads from the sum on, and the number of the one at which the reading stops. The sums are those of
/// `sha256sum`.
const REFUSED: [(&[&[u8]], u32); 31] = [
    // Options stand behind the machine, and before what is claimed of commits.
    (
        &[
            b"sum 01fee87a3363f055854ea29f4dbb570d57cb73512d9dc76a638d29b2ae97cd22\n",
            WORD,
            b"option --clean\n",
            b"machine Linux\n",
            CALLED_BAD,
            CALLED_GOOD,
        ],
        5,
    ),
    (
        &[
            b"sum 783f2c4cf68b69460d6b273cddd372e08cae810be7a3efde6c49849a77f3c09b\n",
            WORD,
            CALLED_BAD,
            b"option --clean\n",
            CALLED_GOOD,
        ],
        5,
    ),
    (
        &[
            b"sum 8f0e32c6a5baaa36dff10fb07cfe7388eeaeda0f62386b2cf47a41c392121737\n",
            WORD,
            b"option\n",
            CALLED_BAD,
            CALLED_GOOD,
        ],
        4,
    ),
    // The status of a commit that was called bad, or good, says the same of it.
    (
        &[
            b"sum 72ab3584aa65d46d273b61956c594960fa620bcbc7159154bfb9a8cb135413e2\n",
            WORD,
            b"called-bad f570778fec974dd2b05ee862e235ff38a61118d3 0\n",
            CALLED_GOOD,
        ],
        4,
    ),
    (
        &[
            b"sum e52fbe2e91db6a35306c484f19977f0ca01a58781f2e81617d7aa22270d9a1ef\n",
            WORD,
            b"called-bad f570778fec974dd2b05ee862e235ff38a61118d3 125\n",
            CALLED_GOOD,
        ],
        4,
    ),
    (
        &[
            b"sum fcac70b4150f955bfd91f250dcd883c42af308ce7ba7e10fbc72ba91d777eaf2\n",
            WORD,
            b"called-bad f570778fec974dd2b05ee862e235ff38a61118d3 99999999999\n",
            CALLED_GOOD,
        ],
        4,
    ),
    (
        &[
            b"sum 20b5fc506c8051ab425a173234620445e32ae05768afe3f508dd79abc9205d3b\n",
            WORD,
            CALLED_BAD,
            b"called-good cf280beb8e59855da6095186b2544590849cd8dd 1\n",
        ],
        5,
    ),
    (
        &[
            b"sum 3603674d160796568407f3ec69ca17e1daa172b03835a1de88dcaf13d5398a9c\n",
            WORD,
            CALLED_BAD,
            b"called-good cf280beb8e59855da6095186b2544590849cd8dd 125\n",
        ],
        5,
    ),
    // Zeros before a status.
    (
        &[
            b"sum 7ee7791d415440fe46648b3ff02c1ff3e5f0991357b1e386016c26e6114b9065\n",
            WORD,
            b"called-bad f570778fec974dd2b05ee862e235ff38a61118d3 01\n",
            CALLED_GOOD,
        ],
        4,
    ),
    (
        &[
            b"sum 5144fb0e0024c8b82e4c5572c640720448a24e6d6f5c9fde3972190c705630be\n",
            WORD,
            CALLED_BAD,
            CALLED_GOOD,
            b"outcome 56b29d9c130e2ec4b506a48d4fe5a18d92d8d1e3 00\n",
        ],
        6,
    ),
    // An outcome that contradicts the answer was good or bad.
    (
        &[
            b"sum 180cfa250617ff49df2d69c2adda9ad6a5472167ae19209166defc90bd659a1f\n",
            WORD,
            CALLED_BAD,
            CALLED_GOOD,
            b"against 56b29d9c130e2ec4b506a48d4fe5a18d92d8d1e3 125\n",
        ],
        6,
    ),
    (
        &[
            b"sum 8262bddaa012bbf07b52b41a8c2d9eb03c85c8c7a4d2a668b38c3c5d384e4577\n",
            WORD,
            CALLED_BAD,
            CALLED_GOOD,
            b"against 56b29d9c130e2ec4b506a48d4fe5a18d92d8d1e3\n",
        ],
        6,
    ),
    // Terms, numbers and times in no form.
    (
        &[
            b"sum 3641abcb47a3cb2d9ea70f7c20f51a955d7d0ac7238f51660c52b95da1579a4a\n",
            WORD,
            b"term-new fixed x\n",
            CALLED_BAD,
            CALLED_GOOD,
        ],
        4,
    ),
    (
        &[
            b"sum 4331f6bf451d2ef289f48a5b1cccd9edb5b343e21524d646374a2d817887be3f\n",
            WORD,
            b"term-old -old\n",
            CALLED_BAD,
            CALLED_GOOD,
        ],
        4,
    ),
    (
        &[
            b"sum 8b6d27332b7f5aa20089d88acd3137fe93c6fe22820fee8446340fff185f2f8d\n",
            WORD,
            b"term-old aaaaaaaaaaaaaaaaaaaaaaaaaaaaaaaaaaaaaaaaa\n",
            CALLED_BAD,
            CALLED_GOOD,
        ],
        4,
    ),
    (
        &[
            b"sum 72ccc0f52aa78bb2e642ae5057eb302fb08966ffd69c9c105fb91ed6b556b7f3\n",
            WORD,
            b"retry 2 x\n",
            CALLED_BAD,
            CALLED_GOOD,
        ],
        4,
    ),
    (
        &[
            b"sum fe7931bd902c01eccbde17632dd1e58197abb94dfb73464e369c9ac2466f855c\n",
            WORD,
            b"retry 0\n",
            CALLED_BAD,
            CALLED_GOOD,
        ],
        4,
    ),
    (
        &[
            b"sum 347e6c01624a889e821c177adf711c1ca5d4bed2445ee06b9e3534b0eb167a52\n",
            WORD,
            b"repeat 100\n",
            CALLED_BAD,
            CALLED_GOOD,
        ],
        4,
    ),
    (
        &[
            b"sum bbab2938739d4706657aaa4b565ba32f473b72eddb729e276cbda6707e136475\n",
            WORD,
            b"repeat 02\n",
            CALLED_BAD,
            CALLED_GOOD,
        ],
        4,
    ),
    (
        &[
            b"sum 0d8f43ab2f24bbdefe876ffc7c54e5533b55a3b2da19b0582da9e7714ef5e86f\n",
            WORD,
            b"made 2026-11-30T10:00:00Z x\n",
            CALLED_BAD,
            CALLED_GOOD,
        ],
        4,
    ),
    (
        &[
            b"sum d55f0469047a3c6bf289bc1b17b3bcf55935cfbacb4a2204f8fba8da1fbe6fe6\n",
            WORD,
            b"made 2026-11-30\n",
            CALLED_BAD,
            CALLED_GOOD,
        ],
        4,
    ),
    (
        &[
            b"sum 94a4b0faea8a651cf6461d117507d521ce8eaf859107b84f56dc401cdfb253a2\n",
            WORD,
            b"made 2026-11-30T10:00:0xZ\n",
            CALLED_BAD,
            CALLED_GOOD,
        ],
        4,
    ),
    // A commit that was tested again is as the lines above say, and told once.
    (
        &[
            b"sum 9a58757a8a6efa4478202997e9203d82d3bd08e2be183ca645dde662733a818d\n",
            WORD,
            CALLED_BAD,
            CALLED_GOOD,
            b"confirmed f570778fec974dd2b05ee862e235ff38a61118d3 good 9 of 9\n",
        ],
        6,
    ),
    (
        &[
            b"sum 1f286559d5a60379e1f330d2b9c4b844feffbbee342562a55e56a938dca69ef5\n",
            WORD,
            CALLED_BAD,
            CALLED_GOOD,
            b"confirmed 56b29d9c130e2ec4b506a48d4fe5a18d92d8d1e3 bad 1 of 1\n",
        ],
        6,
    ),
    (
        &[
            b"sum bfa66e3b96c4ebf7069a4171e0f5664ae8784b1f04b23db1e78f8f9972703611\n",
            WORD,
            CALLED_BAD,
            CALLED_GOOD,
            b"confirmed f570778fec974dd2b05ee862e235ff38a61118d3 bad 3 of 4 x\n",
        ],
        6,
    ),
    (
        &[
            b"sum 9721990f79e30a9ae0d137587cb03e07d3bf4a8bc3599903dbdb713c85de0771\n",
            WORD,
            CALLED_BAD,
            CALLED_GOOD,
            b"confirmed f570778fec974dd2b05ee862e235ff38a61118d3 bad 5 of 4\n",
        ],
        6,
    ),
    (
        &[
            b"sum 0647bb99d27e9461501cef2c1bd0069409b44e93742e16b11b6566c44e8e668a\n",
            WORD,
            CALLED_BAD,
            CALLED_GOOD,
            b"confirmed f570778fec974dd2b05ee862e235ff38a61118d3 bad 03 of 4\n",
        ],
        6,
    ),
    (
        &[
            b"sum 39f90f4325dd1e182f22f9040910ca28a2a09cbb17d9859fdddf5e6c191983de\n",
            WORD,
            CALLED_BAD,
            CALLED_GOOD,
            b"confirmed f570778fec974dd2b05ee862e235ff38a61118d3 bad 0 of 0\n",
        ],
        6,
    ),
    (
        &[
            b"sum 14d3f5327dc3e8c11de3d22f0a8ec303164b2a352af7446af07b2c59302e0124\n",
            WORD,
            CALLED_BAD,
            CALLED_GOOD,
            b"confirmed f570778fec974dd2b05ee862e235ff38a61118d3 bad 3 4\n",
        ],
        6,
    ),
    (
        &[
            b"sum cc649516b65bdf78c2d6186a8a499e628b75d12faaac09ea27b0dda976163ff3\n",
            WORD,
            CALLED_BAD,
            CALLED_GOOD,
            b"confirmed f570778fec974dd2b05ee862e235ff38a61118d3 bad\n",
        ],
        6,
    ),
    (
        &[
            b"sum 95195f2925d90cd90a1e61fbe5000a8b9386988177f78afdd6fdd57928f25365\n",
            WORD,
            CALLED_BAD,
            CALLED_GOOD,
            b"confirmed f570778fec974dd2b05ee862e235ff38a61118d3 bad 3 of 4\n",
            b"confirmed f570778fec974dd2b05ee862e235ff38a61118d3 bad 3 of 4\n",
        ],
        7,
    ),
];

#[test]
fn heads_at_fault(rt: HostRuntime) -> Result<(), Fail> {
    for &(head, line) in &REFUSED {
        let mut lines = Vec::new(rt.alloc());
        lines.push(FIRST)?;
        lines.extend_from_slice(head)?;
        lines.extend_from_slice(&[VERSION, BAD, GOOD, REACH, END])?;
        assert!(rt;
            is_refused(rt.alloc(), FORK, lines.as_slice(), line)?,
            "{head:?}"
        );
    }
    Ok(())
}
