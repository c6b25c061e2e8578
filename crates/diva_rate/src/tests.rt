// Tests of rates. The text that is due was worked out from the lines by a program apart from this one, over exact fractions.
use crate::{Injections, RateFault, write_rates};
use diva_outside::MemSink;
use std::alloc::Global;
use std::test::Fail;

/// The first line of a text.
const HEAD: &[u8] =
    b"fault,model,cycle,lane,field,bit,hit,flushes,latency,cycles,same,open,open_place,open_end\n";

/// Forty lines of all models in two parts, each below the names of the columns, with an empty line between them. Two lines have a
/// fault that has a line before.
const LINES: &[u8] =
    b"fault,model,cycle,lane,field,bit,hit,flushes,latency,cycles,same,open,open_place,open_end\n\
6,flip,836,3,src1,17,yes,1,6,997,yes,silent,4,halt 0\n\
40,set,509,3,word,,yes,1,12,1007,yes,hang,77,\n\
31,lose,185,3,,,yes,1,1000000000000000000,1000,yes,trap,77,\n\
9,double,747,0,,,no,1,,1000,yes,masked,,trap 2\n\
36,hush,156,0,,,yes,0,,997,yes,stray,4,\n\
16,stuck0,71,,value,17,yes,0,,1007,yes,masked,,trap 2\n\
21,stuck1,842,0,addr,17,no,1,,1000,yes,hang,77,\n\
12,flip,506,,pc,31,yes,1,6,1001,yes,silent,4,\n\
29,set,563,0,end,,yes,1,6,1007,yes,trap,77,\n\
33,lose,700,0,,,no,0,,1000,yes,silent,,halt 0\n\
13,double,13,0,,,yes,1,1000000000000000000,1013,yes,trap,,halt 0\n\
9,double,747,0,,,no,1,,1000,yes,masked,,trap 2\n\
0,hush,580,0,,,yes,1,6,1013,no,masked,4,trap 2\n\
41,stuck0,650,0,next,31,yes,1,6,1000,yes,silent,4,halt 0\n\
15,stuck1,581,,word,3,yes,1,12,997,no,stray,,halt 0\n\
11,flip,356,3,src2,17,yes,1,7,1007,yes,hang,4,\n\
23,set,768,0,end,,yes,1,70,1001,yes,silent,77,halt 0\n\
37,lose,371,,,,yes,0,,997,yes,trap,77,halt 0\n\
28,double,376,,,,yes,1,7,1000,yes,stray,4,trap 2\n\
34,hush,777,,,,yes,0,,1007,yes,silent,,trap 2\n\
\n\
fault,model,cycle,lane,field,bit,hit,flushes,latency,cycles,same,open,open_place,open_end\n\
36,set,156,0,,,yes,0,,99999,yes,stray,4,\n\
19,stuck0,810,0,end,3,yes,0,,1000,yes,trap,4,trap 2\n\
24,stuck1,482,,value,3,yes,1,7,1000,yes,stray,,\n\
8,flip,123,0,value,0,no,0,,1000,yes,silent,4,halt 0\n\
38,set,821,3,next,,yes,1,9,1007,yes,masked,77,halt 0\n\
26,lose,155,3,,,yes,1,9,1000,yes,stray,4,trap 2\n\
14,double,160,3,,,no,0,,1000,yes,masked,,trap 2\n\
2,hush,143,0,,,yes,1,1000000000000000000,1000,yes,silent,,\n\
32,stuck0,334,0,src2,3,yes,0,,1000,yes,trap,4,trap 2\n\
35,stuck1,523,,next,17,yes,1,1000000000000000000,1007,yes,stray,,halt 0\n\
18,flip,570,,src1,3,yes,0,,1013,yes,hang,,trap 2\n\
1,set,791,,pc,,yes,1,12,1007,yes,masked,4,\n\
20,lose,525,,,,yes,1,70,1001,yes,stray,4,trap 2\n\
25,double,716,3,,,no,0,,1000,yes,trap,77,halt 0\n\
7,hush,141,0,,,no,1,,1000,yes,hang,4,halt 0\n\
4,stuck0,803,,src2,31,yes,1,1000000000000000000,1000,no,trap,,\n\
3,stuck1,408,0,src1,31,yes,1,,1000,yes,hang,77,\n\
27,flip,740,0,value,31,yes,1,6,1001,yes,hang,77,halt 0\n\
10,set,525,,next,,yes,1,6,1000,no,masked,,\n\
22,lose,186,0,,,yes,0,,1007,yes,trap,4,halt 0";

/// The rates of these.
const RATES: &[u8] = b"faults 38\n\
twice 2\n\
missing 4\n\
of,name,what,count,faults,share,low,high\n\
all,,hit,31,38,0.8158,0.6658,0.9078\n\
all,,found,22,38,0.5789,0.4219,0.7215\n\
all,,same,34,38,0.8947,0.7586,0.9583\n\
all,,masked,7,38,0.1842,0.0922,0.3342\n\
all,,silent,8,38,0.2105,0.1107,0.3635\n\
all,,trap,9,38,0.2368,0.1299,0.3921\n\
all,,hang,7,38,0.1842,0.0922,0.3342\n\
all,,stray,7,38,0.1842,0.0922,0.3342\n\
model,flip,hit,5,6,0.8333,0.4364,0.9700\n\
model,flip,found,4,6,0.6667,0.2999,0.9033\n\
model,flip,same,6,6,1.0000,0.6096,1.0000\n\
model,flip,masked,0,6,0.0000,0.0000,0.3904\n\
model,flip,silent,3,6,0.5000,0.1876,0.8124\n\
model,flip,trap,0,6,0.0000,0.0000,0.3904\n\
model,flip,hang,3,6,0.5000,0.1876,0.8124\n\
model,flip,stray,0,6,0.0000,0.0000,0.3904\n\
model,set,hit,6,6,1.0000,0.6096,1.0000\n\
model,set,found,6,6,1.0000,0.6096,1.0000\n\
model,set,same,5,6,0.8333,0.4364,0.9700\n\
model,set,masked,3,6,0.5000,0.1876,0.8124\n\
model,set,silent,1,6,0.1667,0.0300,0.5636\n\
model,set,trap,1,6,0.1667,0.0300,0.5636\n\
model,set,hang,1,6,0.1667,0.0300,0.5636\n\
model,set,stray,0,6,0.0000,0.0000,0.3904\n\
model,lose,hit,5,6,0.8333,0.4364,0.9700\n\
model,lose,found,3,6,0.5000,0.1876,0.8124\n\
model,lose,same,6,6,1.0000,0.6096,1.0000\n\
model,lose,masked,0,6,0.0000,0.0000,0.3904\n\
model,lose,silent,1,6,0.1667,0.0300,0.5636\n\
model,lose,trap,3,6,0.5000,0.1876,0.8124\n\
model,lose,hang,0,6,0.0000,0.0000,0.3904\n\
model,lose,stray,2,6,0.3333,0.0967,0.7001\n\
model,double,hit,2,5,0.4000,0.1176,0.7693\n\
model,double,found,2,5,0.4000,0.1176,0.7693\n\
model,double,same,5,5,1.0000,0.5655,1.0000\n\
model,double,masked,2,5,0.4000,0.1176,0.7693\n\
model,double,silent,0,5,0.0000,0.0000,0.4345\n\
model,double,trap,2,5,0.4000,0.1176,0.7693\n\
model,double,hang,0,5,0.0000,0.0000,0.4345\n\
model,double,stray,1,5,0.2000,0.0362,0.6245\n\
model,hush,hit,4,5,0.8000,0.3755,0.9638\n\
model,hush,found,2,5,0.4000,0.1176,0.7693\n\
model,hush,same,4,5,0.8000,0.3755,0.9638\n\
model,hush,masked,1,5,0.2000,0.0362,0.6245\n\
model,hush,silent,2,5,0.4000,0.1176,0.7693\n\
model,hush,trap,0,5,0.0000,0.0000,0.4345\n\
model,hush,hang,1,5,0.2000,0.0362,0.6245\n\
model,hush,stray,1,5,0.2000,0.0362,0.6245\n\
model,stuck0,hit,5,5,1.0000,0.5655,1.0000\n\
model,stuck0,found,2,5,0.4000,0.1176,0.7693\n\
model,stuck0,same,4,5,0.8000,0.3755,0.9638\n\
model,stuck0,masked,1,5,0.2000,0.0362,0.6245\n\
model,stuck0,silent,1,5,0.2000,0.0362,0.6245\n\
model,stuck0,trap,3,5,0.6000,0.2307,0.8824\n\
model,stuck0,hang,0,5,0.0000,0.0000,0.4345\n\
model,stuck0,stray,0,5,0.0000,0.0000,0.4345\n\
model,stuck1,hit,4,5,0.8000,0.3755,0.9638\n\
model,stuck1,found,3,5,0.6000,0.2307,0.8824\n\
model,stuck1,same,4,5,0.8000,0.3755,0.9638\n\
model,stuck1,masked,0,5,0.0000,0.0000,0.4345\n\
model,stuck1,silent,0,5,0.0000,0.0000,0.4345\n\
model,stuck1,trap,0,5,0.0000,0.0000,0.4345\n\
model,stuck1,hang,2,5,0.4000,0.1176,0.7693\n\
model,stuck1,stray,3,5,0.6000,0.2307,0.8824\n\
field,pc,hit,2,2,1.0000,0.3423,1.0000\n\
field,pc,found,2,2,1.0000,0.3423,1.0000\n\
field,pc,same,2,2,1.0000,0.3423,1.0000\n\
field,pc,masked,1,2,0.5000,0.0945,0.9055\n\
field,pc,silent,1,2,0.5000,0.0945,0.9055\n\
field,pc,trap,0,2,0.0000,0.0000,0.6577\n\
field,pc,hang,0,2,0.0000,0.0000,0.6577\n\
field,pc,stray,0,2,0.0000,0.0000,0.6577\n\
field,word,hit,2,2,1.0000,0.3423,1.0000\n\
field,word,found,2,2,1.0000,0.3423,1.0000\n\
field,word,same,1,2,0.5000,0.0945,0.9055\n\
field,word,masked,0,2,0.0000,0.0000,0.6577\n\
field,word,silent,0,2,0.0000,0.0000,0.6577\n\
field,word,trap,0,2,0.0000,0.0000,0.6577\n\
field,word,hang,1,2,0.5000,0.0945,0.9055\n\
field,word,stray,1,2,0.5000,0.0945,0.9055\n\
field,src1,hit,3,3,1.0000,0.4384,1.0000\n\
field,src1,found,1,3,0.3333,0.0614,0.7924\n\
field,src1,same,3,3,1.0000,0.4384,1.0000\n\
field,src1,masked,0,3,0.0000,0.0000,0.5616\n\
field,src1,silent,1,3,0.3333,0.0614,0.7924\n\
field,src1,trap,0,3,0.0000,0.0000,0.5616\n\
field,src1,hang,2,3,0.6667,0.2076,0.9386\n\
field,src1,stray,0,3,0.0000,0.0000,0.5616\n\
field,src2,hit,3,3,1.0000,0.4384,1.0000\n\
field,src2,found,2,3,0.6667,0.2076,0.9386\n\
field,src2,same,2,3,0.6667,0.2076,0.9386\n\
field,src2,masked,0,3,0.0000,0.0000,0.5616\n\
field,src2,silent,0,3,0.0000,0.0000,0.5616\n\
field,src2,trap,2,3,0.6667,0.2076,0.9386\n\
field,src2,hang,1,3,0.3333,0.0614,0.7924\n\
field,src2,stray,0,3,0.0000,0.0000,0.5616\n\
field,addr,hit,0,1,0.0000,0.0000,0.7935\n\
field,addr,found,0,1,0.0000,0.0000,0.7935\n\
field,addr,same,1,1,1.0000,0.2065,1.0000\n\
field,addr,masked,0,1,0.0000,0.0000,0.7935\n\
field,addr,silent,0,1,0.0000,0.0000,0.7935\n\
field,addr,trap,0,1,0.0000,0.0000,0.7935\n\
field,addr,hang,1,1,1.0000,0.2065,1.0000\n\
field,addr,stray,0,1,0.0000,0.0000,0.7935\n\
field,value,hit,3,4,0.7500,0.3006,0.9545\n\
field,value,found,2,4,0.5000,0.1500,0.8500\n\
field,value,same,4,4,1.0000,0.5100,1.0000\n\
field,value,masked,1,4,0.2500,0.0455,0.6994\n\
field,value,silent,1,4,0.2500,0.0455,0.6994\n\
field,value,trap,0,4,0.0000,0.0000,0.4900\n\
field,value,hang,1,4,0.2500,0.0455,0.6994\n\
field,value,stray,1,4,0.2500,0.0455,0.6994\n\
field,next,hit,4,4,1.0000,0.5100,1.0000\n\
field,next,found,4,4,1.0000,0.5100,1.0000\n\
field,next,same,3,4,0.7500,0.3006,0.9545\n\
field,next,masked,2,4,0.5000,0.1500,0.8500\n\
field,next,silent,1,4,0.2500,0.0455,0.6994\n\
field,next,trap,0,4,0.0000,0.0000,0.4900\n\
field,next,hang,0,4,0.0000,0.0000,0.4900\n\
field,next,stray,1,4,0.2500,0.0455,0.6994\n\
field,end,hit,3,3,1.0000,0.4384,1.0000\n\
field,end,found,2,3,0.6667,0.2076,0.9386\n\
field,end,same,3,3,1.0000,0.4384,1.0000\n\
field,end,masked,0,3,0.0000,0.0000,0.5616\n\
field,end,silent,1,3,0.3333,0.0614,0.7924\n\
field,end,trap,2,3,0.6667,0.2076,0.9386\n\
field,end,hang,0,3,0.0000,0.0000,0.5616\n\
field,end,stray,0,3,0.0000,0.0000,0.5616\n\
bit,0,hit,0,1,0.0000,0.0000,0.7935\n\
bit,0,found,0,1,0.0000,0.0000,0.7935\n\
bit,0,same,1,1,1.0000,0.2065,1.0000\n\
bit,0,masked,0,1,0.0000,0.0000,0.7935\n\
bit,0,silent,1,1,1.0000,0.2065,1.0000\n\
bit,0,trap,0,1,0.0000,0.0000,0.7935\n\
bit,0,hang,0,1,0.0000,0.0000,0.7935\n\
bit,0,stray,0,1,0.0000,0.0000,0.7935\n\
bit,3,hit,5,5,1.0000,0.5655,1.0000\n\
bit,3,found,2,5,0.4000,0.1176,0.7693\n\
bit,3,same,4,5,0.8000,0.3755,0.9638\n\
bit,3,masked,0,5,0.0000,0.0000,0.4345\n\
bit,3,silent,0,5,0.0000,0.0000,0.4345\n\
bit,3,trap,2,5,0.4000,0.1176,0.7693\n\
bit,3,hang,1,5,0.2000,0.0362,0.6245\n\
bit,3,stray,2,5,0.4000,0.1176,0.7693\n\
bit,17,hit,4,5,0.8000,0.3755,0.9638\n\
bit,17,found,3,5,0.6000,0.2307,0.8824\n\
bit,17,same,5,5,1.0000,0.5655,1.0000\n\
bit,17,masked,1,5,0.2000,0.0362,0.6245\n\
bit,17,silent,1,5,0.2000,0.0362,0.6245\n\
bit,17,trap,0,5,0.0000,0.0000,0.4345\n\
bit,17,hang,2,5,0.4000,0.1176,0.7693\n\
bit,17,stray,1,5,0.2000,0.0362,0.6245\n\
bit,31,hit,5,5,1.0000,0.5655,1.0000\n\
bit,31,found,4,5,0.8000,0.3755,0.9638\n\
bit,31,same,4,5,0.8000,0.3755,0.9638\n\
bit,31,masked,0,5,0.0000,0.0000,0.4345\n\
bit,31,silent,2,5,0.4000,0.1176,0.7693\n\
bit,31,trap,1,5,0.2000,0.0362,0.6245\n\
bit,31,hang,2,5,0.4000,0.1176,0.7693\n\
bit,31,stray,0,5,0.0000,0.0000,0.4345\n\
of,name,found,latency50,latency90,latency99,latency_most,extra\n\
all,,22,9,1000000000000000000,1000000000000000000,1000000000000000000,2.47\n\
model,flip,4,6,7,7,7,3.17\n\
model,set,6,9,70,70,70,4.83\n\
model,lose,3,70,1000000000000000000,1000000000000000000,1000000000000000000,0.83\n\
model,double,2,7,1000000000000000000,1000000000000000000,1000000000000000000,2.60\n\
model,hush,2,6,1000000000000000000,1000000000000000000,1000000000000000000,3.40\n\
model,stuck0,2,6,1000000000000000000,1000000000000000000,1000000000000000000,1.40\n\
model,stuck1,3,12,1000000000000000000,1000000000000000000,1000000000000000000,0.80\n\
field,pc,2,6,12,12,12,4.00\n\
field,word,2,12,12,12,12,2.00\n\
field,src1,1,6,6,6,6,3.33\n\
field,src2,2,7,1000000000000000000,1000000000000000000,1000000000000000000,2.33\n\
field,addr,0,,,,,0.00\n\
field,value,2,6,7,7,7,2.00\n\
field,next,4,6,1000000000000000000,1000000000000000000,1000000000000000000,3.50\n\
field,end,2,6,70,70,70,2.67\n\
bit,0,0,,,,,0.00\n\
bit,3,2,7,12,12,12,2.00\n\
bit,17,3,7,1000000000000000000,1000000000000000000,1000000000000000000,3.60\n\
bit,31,4,6,1000000000000000000,1000000000000000000,1000000000000000000,0.40\n\
";

/// How many bytes the first part has.
const FIRST: usize = 1082;

/// The rates of no line.
const NO_RATES: &[u8] = b"faults 0\ntwice 0\nmissing 0\nof,name,what,count,faults,share,low,high\n\
of,name,found,latency50,latency90,latency99,latency_most,extra\n";

/// Room for the text of all groups.
const ROOM: usize = 65_536;

/// What is written of the rates of a text, or its first fault.
fn rates_of(alloc: Global, texts: &[&[u8]]) -> Result<Result<MemSink, RateFault>, Fail> {
    let mut kept = Injections::new(alloc);
    for text in texts {
        kept = match kept.read(text) {
            Ok(kept) => kept,
            Err(fault) => return Ok(Err(fault)),
        };
    }
    let rates = kept.rates(alloc)?;
    let mut sink = MemSink::new(alloc, ROOM, Vec::new(alloc))?;
    if write_rates(&rates, &mut sink).is_err() {
        return Err(Fail::new("a put failed"));
    }
    Ok(Ok(sink))
}

/// The rates of a text, and of the same text in two.
#[test]
fn rates_of_forty_lines(rt: HostRuntime) -> Result<(), Fail> {
    let (first, second) = LINES.split_at(FIRST);
    for texts in [&[LINES], &[first, second] as &[&[u8]]] {
        let Ok(sink) = rates_of(rt.alloc(), texts)? else {
            return Err(Fail::new("the text has a fault"));
        };
        assert!(rt; sink.bytes() == RATES);
    }
    Ok(())
}

/// No line.
#[test]
fn rates_of_no_line(rt: HostRuntime) -> Result<(), Fail> {
    for text in [b"", HEAD] {
        let Ok(sink) = rates_of(rt.alloc(), &[text])? else {
            return Err(Fail::new("the text has a fault"));
        };
        assert!(rt; sink.bytes() == NO_RATES);
    }
    Ok(())
}

/// Lines with a fault, and its kind.
static FAULTS: [(&[u8], u8); 14] = [
    (b"0,flip,1,0,pc,3,yes,1,6,100,yes,masked,", 1),
    (b"0,flip,1,0,pc,3,yes,1,6,100,yes,masked,,,", 1),
    (b" ", 1),
    (b",flip,1,0,pc,3,yes,1,6,100,yes,masked,,", 2),
    (
        b"9223372036854775808,flip,1,0,pc,3,yes,1,6,100,yes,masked,,",
        2,
    ),
    (
        b"00000000000000000000,flip,1,0,pc,3,yes,1,6,100,yes,masked,,",
        2,
    ),
    (b"+1,flip,1,0,pc,3,yes,1,6,100,yes,masked,,", 2),
    (b"0,flip,1,0,pc,32,yes,1,6,100,yes,masked,,", 2),
    (b"0,flip,1,0,pc,3,yes,1,6,100,yes,masked,x,", 2),
    (b"0,flop,1,0,pc,3,yes,1,6,100,yes,masked,,", 3),
    (b"0,flip,1,0,pca,3,yes,1,6,100,yes,masked,,", 3),
    (b"0,flip,1,0,pc,3,Yes,1,6,100,yes,masked,,", 3),
    (b"0,flip,1,0,pc,3,yes,1,6,100,,masked,,", 3),
    (b"0,flip,1,0,pc,3,yes,1,6,100,yes,,,", 3),
];

/// The first fault of a text, behind the columns' names, an empty line and a line without a fault.
#[test]
fn faults_of_a_line(rt: HostRuntime) -> Result<(), Fail> {
    for &(line, kind) in &FAULTS {
        let mut text = HEAD.to_vec(rt.alloc())?;
        text.extend_from_slice(b"\n9223372036854775807,hush,1,,,,no,0,,100,yes,masked,,halt 0\n")?;
        text.extend_from_slice(line)?;
        let due = RateFault::Bad { line: 4, kind };
        match rates_of(rt.alloc(), &[&text])? {
            Ok(_) => return Err(Fail::new("the line has no fault")),
            Err(fault) => assert_eq!(rt; fault, due),
        }
    }
    Ok(())
}
