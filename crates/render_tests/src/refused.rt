//! A page with every command, whose pulls may be refused memory.

use crate::pages::{Row, page_of_row};
use crate::pulling::{Course, End, course_in, room_of};
use std::alloc::Global;

/// A page with every command.
pub(crate) const EVERY: Row = Row {
    name: "every command",
    params: "{@param x: string}{@param n: int}{@param l: list<[n: int, u: string, w: string]>}{@param m: map<strin\
            g, string>}",
    body: "{let $h kind=\"html\"}<i>{$x}{$n}</i>{/let}{let $k kind=\"attributes\"}id=\"{$x}\"{/let}{let $t kind=\"\
            text\"}{$x}&{call e data=\"all\" /}{/let}{let $v: $x + $n /}<p {$k} title=\"{$t}\">{$h}{$v}</p>{for $i, $\
            j in $l}{if $i.n > 1}<a href=\"{$i.u}\">{$i.w}</a>{elseif $i.n}{$j}{else}-{/if}{switch $i.w}{case 'a', 'b\
            '}1{default}2{/switch}{/for}{call d data=\"all\"}{param h kind=\"html\"}{$h}!{/param}{param t kind=\"text\
            \"}<{$x}>{/param}{param k kind=\"attributes\"}{$k}{/param}{/call}{msg desc=\"p\"}{plural $n}{case 0}none{\
            case 1}one{default}{$n} all{/plural}{/msg}{msg desc=\"s\"}{select $x}{case 'f'}she{default}they{/select}{\
            /msg}<script>f({$x}, '{$x}', {$n});</script><style>p{lb}color: {$x}{rb}</style>{$m['k'] ?: $x}{$m['z'] ?: \
            'z'}{null}{$n == 2}",
    others: "{template d}\n{@param h: html}{@param t: string}{@param k: attributes}{@param x: string}{@param n: in\
            t}\n<u {$k}>{$h}{$t}{$x}</u>{call e data=\"all\" /}\n{/template}\n{template e kind=\"text\"}{@param x: st\
            ring}{@param n: int}[{$x}{$n}]{/template}\n",
    json: "{\"x\":\"a<b\",\"n\":2,\"l\":[{\"n\":2,\"u\":\"/q?a=b c\",\"w\":\"a\"},{\"n\":1,\"u\":\"javascript:1\",\
            \"w\":\"c\"},{\"n\":0,\"u\":\"\",\"w\":\"\u{5d0}\"}],\"m\":{\"k\":\"v\"}}",
    bundle: "",
    text: "<p id=\"a&lt;b\" title=\"a&lt;b&amp;[a&lt;b2]\"><i><span dir=\"ltr\">a&lt;b</span><span dir=\"ltr\">2</\
            span></i><span dir=\"ltr\">a&lt;b2</span></p><a href=\"/q?a=b%20c\"><span dir=\"ltr\">a</span></a>1<span \
            dir=\"ltr\">1</span>2-2<u id=\"a&lt;b\"><i><span dir=\"ltr\">a&lt;b</span><span dir=\"ltr\">2</span></i>!\
            <span dir=\"ltr\">&lt;a&lt;b&gt;</span><span dir=\"ltr\">a&lt;b</span></u><span dir=\"ltr\">[a&lt;b2]</sp\
            an><span dir=\"ltr\">2</span> allthey<script>f('a\\x3cb', 'a\\x3cb',  2 );</script><style>p{color: zSoyz}\
            </style><span dir=\"ltr\">v</span><span dir=\"ltr\">z</span><span dir=\"ltr\">null</span><span dir=\"ltr\
            \">true</span>",
};

/// How the page ends in pulls of 16 bytes; none where it can't be made.
fn course(alloc: Global) -> Option<Option<Course>> {
    let page = page_of_row(alloc, &EVERY)?;
    let mut room = room_of(alloc, 16)?;
    Some(course_in(alloc, &page, room.as_mut_slice(), EVERY.text.as_bytes()))
}

/// With one allocation that fails (`rt try --test --fail-alloc N`) the page is the same, once it can be made.
#[test]
fn the_page_stays_the_same(rt: HostRuntime) {
    if let Some(found) = course(rt.alloc()) {
        let is_whole = match found {
            Some(course) => course.end == End::Whole && course.refused <= 1,
            None => false,
        };
        assert!(rt; is_whole, "{found:?}");
    }
}
