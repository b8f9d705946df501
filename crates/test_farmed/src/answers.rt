//! What `check` answers to answers, each a list of lines.
use crate::calls::checked;
use crate::checked::{BAD, END, GOOD, REACH, VERSION, is_refused, joined};
use crate::streams::FORK;
use bf_output::Status;
use std::test::Fail;

pub(crate) const FIRST: &[u8] = b"farmdawn-answer 1\n";

pub(crate) const WORD: &[u8] = b"word make\n";

pub(crate) const CALLED_BAD: &[u8] = b"called-bad f570778fec974dd2b05ee862e235ff38a61118d3 1\n";

pub(crate) const CALLED_GOOD: &[u8] = b"called-good cf280beb8e59855da6095186b2544590849cd8dd\n";

/// The lines of answers that hold over the fork, and what is told of them. The sums are those of `sha256sum`.
const HELD: [(&[&[u8]], &[u8]); 4] = [
    (
        &[
            FIRST,
            b"sum 72c3818ab85fe5e27bed8bd4cc459cfee6a6ce12c10981a6fb6cb1716964faa0\n",
            WORD,
            CALLED_BAD,
            CALLED_GOOD,
            VERSION,
            BAD,
            GOOD,
            REACH,
            END,
        ],
        b"certificate holds for f570778fec974dd2b05ee862e235ff38a61118d3\n",
    ),
    (
        &[
            FIRST,
            b"sum 1839693e13aa8c4699fe0d9378d7f22b196f7b9c5cc2b952bc1e5513a8b50601\n",
            WORD,
            b"word \\377\n",
            b"folder deep/\n",
            b"term-new fixed\n",
            b"term-old broken\n",
            b"build make\n",
            b"retry 2\n",
            b"repeat 3\n",
            b"made 2026-11-30T10:00:00Z\n",
            b"machine Linux\n",
            b"option --missing\n",
            b"option 5=good\n",
            b"option \n",
            CALLED_BAD,
            CALLED_GOOD,
            b"outcome 56b29d9c130e2ec4b506a48d4fe5a18d92d8d1e3 125\n",
            b"against 56b29d9c130e2ec4b506a48d4fe5a18d92d8d1e3 2\n",
            b"confirmed f570778fec974dd2b05ee862e235ff38a61118d3 bad 3 of 4\n",
            b"confirmed 56b29d9c130e2ec4b506a48d4fe5a18d92d8d1e3 good 4 of 4\n",
            VERSION,
            BAD,
            GOOD,
            REACH,
            END,
        ],
        b"certificate holds for f570778fec974dd2b05ee862e235ff38a61118d3\n",
    ),
    (
        &[
            FIRST,
            b"sum 445f11ca499302b11542f4c1d2fb04745638b0423d935ea9222b3146cc820413\n",
            WORD,
            CALLED_BAD,
            CALLED_GOOD,
            b"outcome 56b29d9c130e2ec4b506a48d4fe5a18d92d8d1e3 0\n",
            VERSION,
            BAD,
            b"good 56b29d9c130e2ec4b506a48d4fe5a18d92d8d1e3\n",
            GOOD,
            END,
        ],
        b"certificate holds for f570778fec974dd2b05ee862e235ff38a61118d3\n",
    ),
    (
        &[
            FIRST,
            b"sum d4a4d230f0ad6a90cf1d4fbe43f28691b4d7360559aa3e06ceb112bcb6b7d624\n",
            WORD,
            CALLED_BAD,
            CALLED_GOOD,
            b"outcome 56b29d9c130e2ec4b506a48d4fe5a18d92d8d1e3 3\n",
            VERSION,
            b"bad 56b29d9c130e2ec4b506a48d4fe5a18d92d8d1e3\n",
            GOOD,
            END,
        ],
        b"certificate holds for 56b29d9c130e2ec4b506a48d4fe5a18d92d8d1e3\n",
    ),
];

/// Lines of answers, and the number of the one at which the reading stops.
const REFUSED: [(&[&[u8]], u32); 29] = [
    // Sums of other lines, or none.
    (&[FIRST], 2),
    (
        &[
            FIRST,
            b"sum 11799df4ff95cd33207df8b6096b56986868ec951a81a61b318cd5f6484d41ea\n",
            WORD,
            CALLED_BAD,
            CALLED_GOOD,
            VERSION,
            BAD,
            GOOD,
            REACH,
            END,
        ],
        2,
    ),
    (
        &[
            FIRST,
            b"sum 72c3818ab85fe5e27bed8bd4cc459cfee6a6ce12c10981a6fb6cb1716964faa0 \n",
            WORD,
            CALLED_BAD,
            CALLED_GOOD,
            VERSION,
            BAD,
            GOOD,
            REACH,
            END,
        ],
        2,
    ),
    (
        &[
            b"farmdawn-answer 2\n",
            WORD,
            CALLED_BAD,
            CALLED_GOOD,
            VERSION,
            BAD,
            GOOD,
            REACH,
            END,
        ],
        1,
    ),
    // Lines out of their order, or left out.
    (
        &[
            FIRST,
            b"sum 11799df4ff95cd33207df8b6096b56986868ec951a81a61b318cd5f6484d41ea\n",
            CALLED_BAD,
            CALLED_GOOD,
            VERSION,
            BAD,
            GOOD,
            REACH,
            END,
        ],
        3,
    ),
    (
        &[
            FIRST,
            b"sum f32d9f35b1ad76c426999fb84d8a461116c1c758f3c37f303dce5571033b9c5a\n",
            WORD,
            CALLED_GOOD,
            VERSION,
            BAD,
            GOOD,
            REACH,
            END,
        ],
        4,
    ),
    (
        &[
            FIRST,
            b"sum be5c9ae3d93344245c02c7efb10f169bbf5d1bada77015632b61d3c793ab498c\n",
            WORD,
            CALLED_BAD,
            VERSION,
            BAD,
            GOOD,
            REACH,
            END,
        ],
        5,
    ),
    (
        &[
            FIRST,
            b"sum 558fbf4684c9c7b8c4ddad6b806eb40d94d7753fcdc81facbeb146ebba4eb3b3\n",
            b"folder deep/\n",
            WORD,
            CALLED_BAD,
            CALLED_GOOD,
            VERSION,
            BAD,
            GOOD,
            REACH,
            END,
        ],
        3,
    ),
    (
        &[
            FIRST,
            b"sum 7be21a820dc682f56ca4616335b65bf01cd3b4c20a4eda6dbe7c10d95b65e457\n",
            WORD,
            b"folder a\n",
            b"folder b\n",
            CALLED_BAD,
            CALLED_GOOD,
            VERSION,
            BAD,
            GOOD,
            REACH,
            END,
        ],
        5,
    ),
    (
        &[
            FIRST,
            b"sum 7799aa19967902df737060ccd2f03f2d4638a76c1219cdf9676c89713d7c817b\n",
            WORD,
            CALLED_BAD,
            CALLED_BAD,
            CALLED_GOOD,
            VERSION,
            BAD,
            GOOD,
            REACH,
            END,
        ],
        5,
    ),
    (
        &[
            FIRST,
            b"sum 15e66049706f206405b60f63b79e07763f2625b13c3d9ed77a89c3feeb8e8144\n",
            WORD,
            CALLED_BAD,
            CALLED_GOOD,
        ],
        6,
    ),
    // Lines in no form.
    (
        &[
            FIRST,
            b"sum 6151c1bdc6646814852307d9b00328afb187a5725e9fc52a3eb6c4302d646571\n",
            WORD,
            b"wort a\n",
            CALLED_BAD,
            CALLED_GOOD,
            VERSION,
            BAD,
            GOOD,
            REACH,
            END,
        ],
        4,
    ),
    (
        &[
            FIRST,
            b"sum 6d4dad8b413b5437f0a57b1f4f98b8be14898cda1f9958fc7ef90cda0d6eebd7\n",
            b"word\n",
            CALLED_BAD,
            CALLED_GOOD,
            VERSION,
            BAD,
            GOOD,
            REACH,
            END,
        ],
        3,
    ),
    (
        &[
            FIRST,
            b"sum 2a2c8b4d0f44e4899f73c4f83dd7ea6a78fdc181d557fc3a3bb3bc21ec46bef5\n",
            b"word \t\n",
            CALLED_BAD,
            CALLED_GOOD,
            VERSION,
            BAD,
            GOOD,
            REACH,
            END,
        ],
        3,
    ),
    (
        &[
            FIRST,
            b"sum 954d7361b3e95819f439e9b10379f98c991ce0282007ae8112211d6b9f7d5009\n",
            WORD,
            b"called-bad f570778fec974dd2b05ee862e235ff38a61118d3 1 \n",
            CALLED_GOOD,
            VERSION,
            BAD,
            GOOD,
            REACH,
            END,
        ],
        4,
    ),
    (
        &[
            FIRST,
            b"sum 675f699fa462eab8b3b7fa72358bba96a4cc0b6bf978642808c1948a89c82802\n",
            WORD,
            CALLED_BAD,
            b"CALLED-GOOD CF280BEB8E59855DA6095186B2544590849CD8DD\n",
            VERSION,
            BAD,
            GOOD,
            REACH,
            END,
        ],
        5,
    ),
    (
        &[
            FIRST,
            b"sum 739d7f2e37b6cf5d5743bdaa06eb6a1cd552cadb5beb1661b27b8f14493782cf\n",
            WORD,
            CALLED_BAD,
            CALLED_GOOD,
            b"outcome 56b29d9c130e2ec4b506a48d4fe5a18d92d8d1e3 126\n",
            VERSION,
            BAD,
            GOOD,
            REACH,
            END,
        ],
        6,
    ),
    (
        &[
            FIRST,
            b"sum bb3ea261aaaf3d1eccf2c5d8a4a8c58cdb4f0e3d7e7744f1b101728f342566f6\n",
            WORD,
            CALLED_BAD,
            CALLED_GOOD,
            b"outcome 56b29d9c130e2ec4b506a48d4fe5a18d92d8d1e3\n",
            VERSION,
            BAD,
            GOOD,
            REACH,
            END,
        ],
        6,
    ),
    (
        &[
            FIRST,
            b"sum 5e2441cf8d1e1fff154b7b4fecd47aab4f6b8ce7d0300a90b9b557a9a2d0c405\n",
            WORD,
            CALLED_BAD,
            CALLED_GOOD,
            b"outcome 0000000000000000000000000000000000000000 0\n",
            VERSION,
            BAD,
            GOOD,
            REACH,
            END,
        ],
        6,
    ),
    // Claims of a commit of which something is claimed.
    (
        &[
            FIRST,
            b"sum 13612e9db43d95ad2387f67bc1e3faf87203fa5b6187eb043b51671169f5b1c0\n",
            WORD,
            CALLED_BAD,
            CALLED_GOOD,
            b"outcome cf280beb8e59855da6095186b2544590849cd8dd 0\n",
            VERSION,
            BAD,
            GOOD,
            REACH,
            END,
        ],
        6,
    ),
    (
        &[
            FIRST,
            b"sum e4e2cf9a2b5a167645533f4d8f1fca13393aa98ee0e3606ff0595a2d66ffdf23\n",
            WORD,
            CALLED_BAD,
            CALLED_GOOD,
            b"outcome 56b29d9c130e2ec4b506a48d4fe5a18d92d8d1e3 0\n",
            b"outcome 56b29d9c130e2ec4b506a48d4fe5a18d92d8d1e3 0\n",
            VERSION,
            BAD,
            GOOD,
            REACH,
            END,
        ],
        7,
    ),
    // A bad commit that is not claimed to be bad, and good ones that are not those that are claimed so.
    (
        &[
            FIRST,
            b"sum 086cc98ed38e88ddd8e977d35b9df313afa599ca856922ac5744becffffd2581\n",
            WORD,
            CALLED_BAD,
            CALLED_GOOD,
            VERSION,
            b"bad 56b29d9c130e2ec4b506a48d4fe5a18d92d8d1e3\n",
            GOOD,
            END,
        ],
        7,
    ),
    (
        &[
            FIRST,
            b"sum d7cfc64ec3a4dde1a74a2c81c33abefca13f39e57f5006058b522c37a35f9f32\n",
            WORD,
            CALLED_BAD,
            CALLED_GOOD,
            VERSION,
            BAD,
            GOOD,
            b"good 56b29d9c130e2ec4b506a48d4fe5a18d92d8d1e3\n",
            END,
        ],
        9,
    ),
    (
        &[
            FIRST,
            b"sum cd2b07b60187b666757ab3d45501fcbb1353036ee091ac638006b76d50fcb8cd\n",
            WORD,
            CALLED_BAD,
            CALLED_GOOD,
            VERSION,
            BAD,
            GOOD,
            GOOD,
            REACH,
            END,
        ],
        9,
    ),
    (
        &[
            FIRST,
            b"sum 1649f0ce104f73aeb33f549f9aa19bff7773bc17608fc4c1b4aa6f56eb7c83a3\n",
            WORD,
            CALLED_BAD,
            CALLED_GOOD,
            b"outcome 56b29d9c130e2ec4b506a48d4fe5a18d92d8d1e3 0\n",
            VERSION,
            BAD,
            GOOD,
            REACH,
            END,
        ],
        10,
    ),
    (
        &[
            FIRST,
            b"sum d0921db8cfd87e40407f7cf831c602fd20befadae1fdea1360384ef2f7f9252c\n",
            WORD,
            CALLED_BAD,
            CALLED_GOOD,
            b"outcome 56b29d9c130e2ec4b506a48d4fe5a18d92d8d1e3 0\n",
            VERSION,
            BAD,
            b"first-parent\n",
            GOOD,
            REACH,
            END,
        ],
        11,
    ),
    // Certificates that fail.
    (
        &[
            FIRST,
            b"sum 86b138f6edcabb2cc1dd17f04c50f7568cac48a8bc7e64d20c0a8c9f46e8f37c\n",
            WORD,
            CALLED_BAD,
            CALLED_GOOD,
            VERSION,
            BAD,
            GOOD,
            END,
        ],
        9,
    ),
    (
        &[
            FIRST,
            b"sum f7cb18f169ff4ed8d56624c16f6c93a1caca24f989fe4aaba3fb567a0f2d1c3b\n",
            WORD,
            CALLED_BAD,
            CALLED_GOOD,
            VERSION,
            BAD,
            GOOD,
            REACH,
        ],
        10,
    ),
    (
        &[
            FIRST,
            b"sum 1a5cce5078ca91d39afa9b3c660f2328d623597420d396fd2b09ef7d0784736f\n",
            WORD,
            CALLED_BAD,
            CALLED_GOOD,
            VERSION,
            BAD,
            GOOD,
            REACH,
            END,
            END,
        ],
        11,
    ),
];

#[test]
fn answers_that_hold(rt: HostRuntime) -> Result<(), Fail> {
    for &(lines, text) in &HELD {
        let answered = checked(rt.alloc(), FORK, joined(rt.alloc(), lines)?)?;
        assert!(rt; answered.is(Status::Done, text), "{lines:?}");
    }
    Ok(())
}

#[test]
fn answers_at_fault(rt: HostRuntime) -> Result<(), Fail> {
    for &(lines, line) in &REFUSED {
        assert!(rt; is_refused(rt.alloc(), FORK, lines, line)?, "{lines:?}");
    }
    Ok(())
}
