//! The pages of examples/shop, whose files stand here as .ci/example.py writes them.

use crate::running::{Row, is_answered};
use soy_top::Status;

const LAYOUT: &str = "{namespace shop.layout}\n\
     \n\
     /* The frame of every page. */\n\
     {template page}\n\
     \x20 {@param title: string}\n\
     \x20 {@param lang: string}\n\
     \x20 {@param rtl: bool}\n\
     \x20 {@param accent: string}\n\
     \x20 {@param body: html}\n\
     \x20 <!DOCTYPE html>\n\
     \x20 <html lang=\"{$lang}\" dir=\"{if $rtl}rtl{else}ltr{/if}\">\n\
     \x20 <head>\n\
     \x20 <meta charset=\"utf-8\">\n\
     \x20 <title>{$title}</title>\n\
     \x20 <style>\n\
     \x20   h1 {lb} border-bottom: 2px solid {$accent}; {rb}\n\
     \x20   .sold {lb} opacity: 0.5; {rb}\n\
     \x20 </style>\n\
     \x20 </head>\n\
     \x20 <body>\n\
     \x20 <h1>{$title}</h1>\n\
     \x20 {$body}\n\
     \x20 </body>\n\
     \x20 </html>\n\
     {/template}\n";

const LIST: &str = "{namespace shop.list}\n\
     \n\
     /* The page of a shop: its products, and a script that counts them. */\
     \n\
     {template main}\n\
     \x20 {@param shop: string}\n\
     \x20 {@param lang: string}\n\
     \x20 {@param rtl: bool}\n\
     \x20 {@param accent: string}\n\
     \x20 {@param currency: string}\n\
     \x20 {@param visitor: string|null}\n\
     \x20 {@param products: list<[name: string, maker: string, url: string, ce\
     nts: int, left: int, notes: list<string>]>}\n\
     \x20 {let $body kind=\"html\"}\n\
     \x20   <p>\n\
     \x20   {if $visitor}\n\
     \x20     {msg desc=\"Greets a visitor who is known\"}Hello {$visitor phna\
     me=\"VISITOR\"}, <b>welcome back</b>!{/msg}\n\
     \x20   {else}\n\
     \x20     {msg desc=\"Greets a visitor who is not known\"}Welcome!{/msg}\n\
     \x20   {/if}\n\
     \x20   </p>\n\
     \x20   <ul>\n\
     \x20   {for $product in $products}\n\
     \x20     {call shop.product.row}{param product: $product /}{param currenc\
     y: $currency /}{/call}\n\
     \x20   {/for}\n\
     \x20   </ul>\n\
     \x20   <script>var visitor = {$visitor ?: ''};</script>\n\
     \x20 {/let}\n\
     \x20 {call shop.layout.page data=\"all\"}\n\
     \x20   {param title: $shop /}\n\
     \x20   {param body kind=\"html\"}{$body}{/param}\n\
     \x20 {/call}\n\
     {/template}\n";

const PRODUCT: &str = "{namespace shop.product}\n\
     \n\
     /* One product of a list. */\n\
     {template row}\n\
     \x20 {@param product: [name: string, maker: string, url: string, cents: i\
     nt, left: int, notes: list<string>]}\n\
     \x20 {@param currency: string}\n\
     \x20 {let $state kind=\"attributes\"}{if $product.left == 0}class=\"sold\
     \"{/if}{/let}\n\
     \x20 <li {$state}>\n\
     \x20 <a href=\"{$product.url}\" title=\"{$product.name}\">{$product.name}\
     </a>{sp}\n\
     \x20 {msg desc=\"Who makes a product\"}by {$product.maker phname=\"MAKER\
     \"}{/msg}:{sp}\n\
     \x20 {call price}{param cents: $product.cents /}{param currency: $currenc\
     y /}{/call}\n\
     \x20 <p>{msg desc=\"How many pieces are left\"}\n\
     \x20   {plural $product.left}\n\
     \x20     {case 0}Sold out\n\
     \x20     {case 1}The last one\n\
     \x20     {default}{$product.left} left\n\
     \x20   {/plural}\n\
     \x20 {/msg}</p>\n\
     \x20 {for $note, $n in $product.notes}{if $n > 0}; {/if}<q>{$note}</q>{/f\
     or}\n\
     \x20 </li>\n\
     {/template}\n\
     \n\
     /* A price: the currency and the cents. */\n\
     {template price kind=\"text\"}\n\
     \x20 {@param cents: int}\n\
     \x20 {@param currency: string}\n\
     \x20 {$cents} {$currency}\n\
     {/template}\n";

const DATA: &str = "{\n\
     \x20 \"shop\": \"Bücher & mehr\",\n\
     \x20 \"lang\": \"en\",\n\
     \x20 \"rtl\": false,\n\
     \x20 \"accent\": \"#336699\",\n\
     \x20 \"currency\": \"cents\",\n\
     \x20 \"visitor\": \"דנה\",\n\
     \x20 \"products\": [\n\
     \x20   {\"name\": \"Learn C++\", \"maker\": \"Ann & Bob\", \"url\": \"/p?\
     id=1&from=list\", \"cents\": 2500, \"left\": 3,\n\
     \x20    \"notes\": [\"Gut!\", \"<script>alert(1)</script>\"]},\n\
     \x20   {\"name\": \"שיר השירים (מהדורה 2)\", \"maker\": \"דן\", \"url\"\
     : \"https://a.example/שיר\", \"cents\": 1800, \"left\": 1,\n\
     \x20    \"notes\": []},\n\
     \x20   {\"name\": \"Old\", \"maker\": \"Eve\", \"url\": \"javascript:aler\
     t(1)\", \"cents\": 1, \"left\": 0, \"notes\": [\"gone?\"]}\n\
     \x20 ]\n\
     }\n";

const DATA_HE: &str = "{\n\
     \x20 \"shop\": \"ספרים ועוד\",\n\
     \x20 \"lang\": \"he\",\n\
     \x20 \"rtl\": true,\n\
     \x20 \"accent\": \"#336699\",\n\
     \x20 \"currency\": \"אגורות\",\n\
     \x20 \"visitor\": \"דנה\",\n\
     \x20 \"products\": [\n\
     \x20   {\"name\": \"Learn C++\", \"maker\": \"Ann & Bob\", \"url\": \"/p?\
     id=1&from=list\", \"cents\": 2500, \"left\": 3,\n\
     \x20    \"notes\": [\"Gut!\", \"<script>alert(1)</script>\"]},\n\
     \x20   {\"name\": \"שיר השירים (מהדורה 2)\", \"maker\": \"דן\", \"url\"\
     : \"https://a.example/שיר\", \"cents\": 1800, \"left\": 1,\n\
     \x20    \"notes\": []},\n\
     \x20   {\"name\": \"Old\", \"maker\": \"Eve\", \"url\": \"javascript:aler\
     t(1)\", \"cents\": 1, \"left\": 0, \"notes\": [\"gone?\"]}\n\
     \x20 ]\n\
     }\n";

const HE: &str = "{\n\
     \x20 \"dir\": \"rtl\",\n\
     \x20 \"locale\": \"he\",\n\
     \x20 \"plural\": {\"one\": \"i = 1 and v = 0\", \"two\": \"i = 2 an\
     d v = 0\"},\n\
     \x20 \"messages\": {\n\
     \x20   \"4d818ddfdb33bc62\": \"מאת {MAKER}\",\n\
     \x20   \"44305aae6ee6fb27\": \"{LEFT, plural, =0 {אזל} one {האחרון} two {\
     נשארו שניים} other {נשארו #}}\",\n\
     \x20   \"0518fc739dc5f8d1\": \"שלום {VISITOR}, {START_BOLD}טוב לראותך{END\
     _BOLD}!\",\n\
     \x20   \"b67319ae348063a0\": \"ברוכים הבאים!\"\n\
     \x20 }\n\
     }\n";

const PAGE_EN: &str = "<!DOCTYPE html><html lang=\"en\" dir=\"ltr\"><head><meta charset=\"utf\
     -8\"><title>Bücher &amp; mehr</title><style>h1 { border-bottom: 2px so\
     lid #336699; }.sold { opacity: 0.5; }</style></head><body><h1><span di\
     r=\"ltr\">Bücher &amp; mehr</span></h1><p>Hello <span dir=\"rtl\">דנה<\
     /span>, <b>welcome back</b>!</p><ul><li ><a href=\"/p?id=1&amp;from=li\
     st\" title=\"Learn C++\"><span dir=\"ltr\">Learn C++</span></a> by <sp\
     an dir=\"ltr\">Ann &amp; Bob</span>: <span dir=\"ltr\">2500 cents</spa\
     n><p><span dir=\"ltr\">3</span> left</p><q><span dir=\"ltr\">Gut!</spa\
     n></q>; <q><span dir=\"ltr\">&lt;script&gt;alert(1)&lt;/script&gt;</sp\
     an></q></li><li ><a href=\"https://a.example/%D7%A9%D7%99%D7%A8\" titl\
     e=\"שיר השירים (מהדורה 2)\"><span dir=\"rtl\">שיר השירים (מהדורה 2)</s\
     pan></a> by <span dir=\"rtl\">דן</span>: <span dir=\"ltr\">1800 cents<\
     /span><p>The last one</p></li><li class=\"sold\"><a href=\"about:inval\
     id#zSoyz\" title=\"Old\"><span dir=\"ltr\">Old</span></a> by <span dir\
     =\"ltr\">Eve</span>: <span dir=\"ltr\">1 cents</span><p>Sold out</p><q\
     ><span dir=\"ltr\">gone?</span></q></li></ul><script>var visitor = 'דנ\
     ה';</script></body></html>";

const PAGE_HE: &str = "<!DOCTYPE html><html lang=\"he\" dir=\"rtl\"><head><meta charset=\"utf\
     -8\"><title>ספרים ועוד</title><style>h1 { border-bottom: 2px solid #33\
     6699; }.sold { opacity: 0.5; }</style></head><body><h1><span dir=\"rtl\
     \">ספרים ועוד</span></h1><p>שלום <span dir=\"rtl\">דנה</span>, <b>טו\
     ב לראותך</b>!</p><ul><li ><a href=\"/p?id=1&amp;from=list\" title=\"Le\
     arn C++\"><span dir=\"ltr\">Learn C++</span></a> מאת <span dir=\"ltr\"\
     >Ann &amp; Bob</span>: <span dir=\"rtl\">2500 אגורות</span><p>נשארו <s\
     pan dir=\"ltr\">3</span></p><q><span dir=\"ltr\">Gut!</span></q>; <q><\
     span dir=\"ltr\">&lt;script&gt;alert(1)&lt;/script&gt;</span></q></li>\
     <li ><a href=\"https://a.example/%D7%A9%D7%99%D7%A8\" title=\"שיר השיר\
     ים (מהדורה 2)\"><span dir=\"rtl\">שיר השירים (מהדורה 2)</span></a> מא\
     ת <span dir=\"rtl\">דן</span>: <span dir=\"rtl\">1800 אגורות</span><p>\
     האחרון</p></li><li class=\"sold\"><a href=\"about:invalid#zSoyz\" titl\
     e=\"Old\"><span dir=\"ltr\">Old</span></a> מאת <span dir=\"ltr\">Eve</\
     span>: <span dir=\"rtl\">1 אגורות</span><p>אזל</p><q><span dir=\"ltr\"\
     >gone?</span></q></li></ul><script>var visitor = 'דנה';</script></body\
     ></html>";

/// The page in both languages.
const PAGES: &[Row] = &[
    (
        "in English",
        "render shop.list.main data.json - layout.soy list.soy product.soy",
        &[
            ("data.json", DATA),
            ("layout.soy", LAYOUT),
            ("list.soy", LIST),
            ("product.soy", PRODUCT),
        ],
        Status::Done,
        PAGE_EN,
        "",
    ),
    (
        "in Hebrew",
        "render shop.list.main data.he.json he.json layout.soy list.soy product.soy",
        &[
            ("data.he.json", DATA_HE),
            ("he.json", HE),
            ("layout.soy", LAYOUT),
            ("list.soy", LIST),
            ("product.soy", PRODUCT),
        ],
        Status::Done,
        PAGE_HE,
        "",
    ),
];

#[test]
fn pages_of_the_example(rt: HostRuntime) {
    for row in PAGES {
        assert!(rt; is_answered(rt.alloc(), row), "row {}", row.0);
    }
}
