//! The lines that curl writes about transfers.

use std::str;

/// A line that curl wrote about a transfer: `NUMBER STATUS CODE REDIRECTS SECONDS MESSAGE`, separated by
/// tabs.
#[derive(Clone, Copy)]
pub(super) struct CurlLine<'a> {
    pub(super) number: usize,
    /// The HTTP status, `000` where there is no answer.
    pub(super) status: &'a str,
    /// The exit code.
    pub(super) code: &'a str,
    /// The number of redirects that were followed.
    pub(super) redirects: &'a str,
    /// The seconds that it took, with a decimal point.
    pub(super) seconds: &'a str,
    pub(super) message: &'a str,
}

impl CurlLine<'_> {
    /// The milliseconds that the transfer took.
    pub(super) fn milliseconds(&self) -> u64 {
        let (whole, part) = self.seconds.split_once('.').unwrap_or((self.seconds, ""));
        let mut digits = part.bytes();
        let mut thousandths = 0u64;
        for _ in 0..3 {
            let digit = match digits.next() {
                Some(byte) => u64::from(byte.saturating_sub(b'0').min(9)),
                None => 0,
            };
            thousandths = thousandths.saturating_mul(10).saturating_add(digit);
        }
        let seconds = whole.parse::<u64>().unwrap_or(0);
        seconds.saturating_mul(1000).saturating_add(thousandths)
    }
}

/// Reads a line of curl; `None` where it is none.
pub(super) fn read_line(bytes: &[u8]) -> Option<CurlLine<'_>> {
    let line = str::from_utf8(bytes).ok()?;
    let (number, rest) = line.split_once('\t')?;
    let (status, rest) = rest.split_once('\t')?;
    let (code, rest) = rest.split_once('\t')?;
    let (redirects, rest) = rest.split_once('\t')?;
    let (seconds, message) = rest.split_once('\t')?;
    Some(CurlLine {
        number: number.parse::<usize>().ok()?,
        status,
        code,
        redirects,
        seconds,
        message,
    })
}
