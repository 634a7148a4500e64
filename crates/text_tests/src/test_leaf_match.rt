//! Tests of leaf_match.
use crate::rows::said;
use leaf_match::{
    Cidr, Family, NoMemory, Wild, WildFault, ends_ci, equal_ci, like, starts_ci, wild,
};
use std::alloc::Global;
use std::test::Fail;
use test_rows::{all_met, four, three, two};

/// A wildcard, a text, and whether the text fits. Worked by hand.
const WILDCARDS: &str = r"a*b*|ab|true
\*|*|true
\*|x|false
||true
a**b|ab|refused
a\b|ab|refused
*||true
*|anything at all|true
abc|abc|true
abc|abcd|false
abc|ab|false
|a|false
a*|a|true
a*|b|false
*a|ba|true
*a|ab|false
*ab|aab|true
*aab|aaab|true
a*a|a|false
a*a|aa|true
a*b*c|axbxc|true
a*b*c|acb|false
*a*b*|xbxa|false
*ab*ab*|abab|true
*ab*ab*|abxa|false
*abab*b|ababab|true
*abab*b|abab|false
a*b|acbé|false
café|café|true
caf*|café|true
A|a|false
\\|\|true
\\*|\abc|true
\\*|*|false
*\*|ab*|true
\**|*x|true
\**|x*|false
\*\*|**|true
*\**|a*b|true
**||refused
\|\|refused
a\|a\|refused
\n|n|refused
***||refused
?|a|false
?|?|true
";

/// A wildcard and the letters before its first run. Worked by hand.
const FRONTS: &str = r"|
ab|ab
ab*c|ab
a\**|a*
*|
";

/// A pattern, a text, and whether the text fits. Worked by hand.
const LIKES: &str = r"?|é|true
??|é|false
?|€|true
???|€|false
?|😀|true
????|😀|false
?||false
*||true
**|x|true
a**b|ab|true
a\*|a\x|true
a\*|a*|false
\?|\x|true
\?|?|false
a?c|abc|true
a?c|ac|false
*?||false
*?|é|true
?*?|é|false
?*?|éa|true
*é|xé|true
*?b|é|false
*?b|éb|true
aws.?3|aws.s3|true
AWS.*|aws.s3|false
aws.*|aws|false
";

/// A text, another, and whether the first begins with, ends with and is the second. Worked by hand.
const FOLDED: &str = "AbC|aBc|true|true|true
AbCd|aBc|true|false|false
xAbC|aBc|false|true|false
aBc|AbCd|false|false|false
||true|true|true
|a|false|false|false
a||true|true|false
É|é|false|false|false
k|\u{212a}|false|false|false
[|{|false|false|false
@|`|false|false|false
éA|a|false|true|false
Aé|a|true|false|false
ABd|abc|false|false|false
";

/// A prefix, a text, whether the prefix holds the text, and where the prefix or the two spellings are from.
const SAMPLES: &str = "172.16.0.0/16|172.16.255.1|true|RFC 4632, 3.1
172.16.0.0/16|172.17.0.1|false|RFC 4632, 3.1
192.168.99.0/24|192.168.99.200|true|RFC 4632, 3.1
192.168.99.0/24|192.168.98.200|false|RFC 4632, 3.1
0.0.0.0/0|192.0.2.1|true|RFC 4632, 5.1
2001:0DB8:0000:CD30:0000:0000:0000:0000/60|2001:0DB8:0:CD30:123:4567:89AB:CDEF|true|RFC 4291, 2.3
2001:0DB8::CD30:0:0:0:0/60|2001:DB8:0:CD3F::|true|RFC 4291, 2.3
2001:0DB8:0:CD30::/60|2001:DB8:0:CD40::|false|RFC 4291, 2.3
2001:0DB8:0:CD3/60|2001:0DB8:0:CD30::|refused|RFC 4291, 2.3
2001:0DB8::CD30/60|2001:0DB8:0:CD30::|false|RFC 4291, 2.3
2001:0DB8::CD3/60|2001:0DB8:0:CD30::|false|RFC 4291, 2.3
ABCD:EF01:2345:6789:ABCD:EF01:2345:6789/128|abcd:ef01:2345:6789:abcd:ef01:2345:6789|true|RFC 4291, 2.2, forms 1 and 2
2001:DB8::8:800:200C:417A/128|2001:DB8:0:0:8:800:200C:417A|true|RFC 4291, 2.2, forms 1 and 2
FF01::101/128|FF01:0:0:0:0:0:0:101|true|RFC 4291, 2.2, forms 1 and 2
::1/128|0:0:0:0:0:0:0:1|true|RFC 4291, 2.2, forms 1 and 2
::/128|0:0:0:0:0:0:0:0|true|RFC 4291, 2.2, forms 1 and 2
::13.1.68.3/128|::D01:4403|refused|RFC 4291, 2.2, form 3
0:0:0:0:0:0:13.1.68.3/128|::D01:4403|refused|RFC 4291, 2.2, form 3
::/0|::FFFF:129.144.52.38|false|RFC 4291, 2.2, form 3
2001:db8:aaaa:bbbb:cccc:dddd:eeee:0001/128|2001:db8:aaaa:bbbb:cccc:dddd:eeee:1|true|RFC 5952, 2.1
2001:db8::1/128|2001:db8:0:0:0::1|true|RFC 5952, 2.2
2001:db8::aaaa:0:0:1/128|2001:db8:0:0:aaaa::1|true|RFC 5952, 2.2
2001:db8:aaaa:bbbb:cccc:dddd:eeee:aaaa/128|2001:db8:aaaa:bbbb:cccc:dddd:eeee:AaAa|true|RFC 5952, 2.3
";

/// A prefix, a text, and whether the prefix holds the text. Worked by hand.
const PREFIXES: &str = "10.0.0.0/0|255.255.255.255|true
10.0.0.0/33|10.0.0.0|refused
10.0.0.0/8|010.0.0.1|false
10.0.0.0/8|::|false
10.0.0.0/8|10.255.0.1|true
192.0.2.7/24|192.0.2.200|true
192.0.2.1/32|192.0.2.1|true
192.0.2.1/32|192.0.2.0|false
192.0.2.128/25|192.0.2.127|false
192.0.2.128/25|192.0.2.255|true
192.0.2.0/24|192.0.2|false
192.0.2.0/24|192.0.2.256|false
192.0.2.0/24|192.0.2.1 |false
192.0.2.0/24|192.0.2.1/32|false
192.0.2.0/24||false
192.0.2.0|192.0.2.0|refused
192.0.2.0/|192.0.2.0|refused
192.0.2.0/08|192.0.2.0|refused
192.0.2.0/+8|192.0.2.0|refused
192.0.2.0/-8|192.0.2.0|refused
192.0.2.0/4294967304|192.0.2.0|refused
192.0.2.0/24/24|192.0.2.0|refused
192.0.2/24|192.0.2.0|refused
010.0.0.0/8|10.0.0.0|refused
/8||refused
::/0|ff01::101|true
::/0|0.0.0.0|false
0.0.0.0/0|::|false
2001:db8::/32|2001:db9::1|false
8000::/1|ffff::|true
8000::/1|7fff::|false
fe80::/10|fe80::1%eth0|false
fe80::%1/10|fe80::1|refused
1::2::3/16|1::|refused
1:2:3:4:5:6:7::/16|1::|true
1:2:3:4:5:6:7::8/16|1::|refused
::/129|::|refused
";

fn wild_answer(alloc: Global, pattern: &str, text: &str) -> Result<Option<bool>, NoMemory> {
    match Wild::read(alloc, pattern) {
        Ok(pattern) => Ok(Some(wild(&pattern.copy(alloc)?, text))),
        Err(WildFault::BadWild) => Ok(None),
        Err(WildFault::NoMemory) => Err(NoMemory),
    }
}

fn is_wildcard_met(alloc: Global, row: &str) -> Result<bool, Fail> {
    let (pattern, text, want) = three(row);
    Ok(said(wild_answer(alloc, pattern, text)?) == want)
}

#[test]
fn wildcards(rt: HostRuntime) -> Result<(), Fail> {
    all_met(rt.alloc(), WILDCARDS, 46, is_wildcard_met)
}

fn is_front_met(alloc: Global, row: &str) -> Result<bool, Fail> {
    let (pattern, front) = two(row);
    Ok(Wild::read(alloc, pattern)?.literal_front() == front.as_bytes())
}

#[test]
fn fronts(rt: HostRuntime) -> Result<(), Fail> {
    all_met(rt.alloc(), FRONTS, 5, is_front_met)
}

fn is_like_met(_: Global, row: &str) -> Result<bool, Fail> {
    let (pattern, text, want) = three(row);
    Ok(said(Some(like(pattern, text))) == want)
}

#[test]
fn likes(rt: HostRuntime) -> Result<(), Fail> {
    all_met(rt.alloc(), LIKES, 26, is_like_met)
}

fn is_folded_met(_: Global, row: &str) -> Result<bool, Fail> {
    let (text, part, starts, rest) = four(row);
    let (ends, equals) = two(rest);
    let is_front = said(Some(starts_ci(text, part))) == starts;
    let is_end = said(Some(ends_ci(text, part))) == ends;
    Ok(is_front & is_end & (said(Some(equal_ci(text, part))) == equals))
}

#[test]
fn folded(rt: HostRuntime) -> Result<(), Fail> {
    all_met(rt.alloc(), FOLDED, 14, is_folded_met)
}

fn prefix_answer(prefix: &str, text: &str) -> Option<bool> {
    match Cidr::read(prefix) {
        Some(cidr) => Some(cidr.holds(text)),
        None => None,
    }
}

fn is_sample_met(_: Global, row: &str) -> Result<bool, Fail> {
    let (prefix, text, want, source) = four(row);
    Ok(said(prefix_answer(prefix, text)) == want && source.starts_with("RFC "))
}

fn is_prefix_met(_: Global, row: &str) -> Result<bool, Fail> {
    let (prefix, text, want) = three(row);
    Ok(said(prefix_answer(prefix, text)) == want)
}

#[test]
fn prefixes(rt: HostRuntime) -> Result<(), Fail> {
    all_met(rt.alloc(), SAMPLES, 23, is_sample_met)?;
    all_met(rt.alloc(), PREFIXES, 37, is_prefix_met)
}

#[test]
fn a_prefix_shows_its_parts(rt: HostRuntime) {
    let parts = Cidr::read("192.0.2.7/24").map(|c| (c.family(), c.first_bits(), c.length()));
    assert_eq!(rt; parts, Some((Family::V4, 0xc0_00_02, 24)));
}
