//! The constant programs; bench/front-code writes this file.
//!
//! Each list stands here once, by macros for the bytes that a machine reads. Behind `=>` is the fused
//! operation that stands for an operation in the fast code, if it is another one.

use matcher_code::fused::{CallFrame, Fused};

// A word of four bytes.
macro_rules! word {
    ($word:literal) => {
        [($word & 255) as u8, ($word >> 8) as u8, 0, 0]
    };
}

macro_rules! words {
    ($($word:literal)*) => {
        [$(word!($word)),*]
    };
}

// The ranges of sets, of two words each.
macro_rules! ranges {
    ($($(($low:literal $high:literal))*;)*) => {
        [$($([
            ($low & 255) as u8, ($low >> 8 & 255) as u8, ($low >> 16) as u8, 0,
            ($high & 255) as u8, ($high >> 8 & 255) as u8, ($high >> 16) as u8, 0,
        ]),*),*]
    };
}

// An operation of five words.
macro_rules! op {
    ($kind:literal $a:literal $b:literal $c:literal $d:literal) => {
        [
            $kind, 0, 0, 0,
            ($a & 255) as u8, ($a >> 8) as u8, 0, 0,
            ($b & 255) as u8, ($b >> 8) as u8, 0, 0,
            ($c & 255) as u8, ($c >> 8) as u8, 0, 0,
            ($d & 255) as u8, ($d >> 8) as u8, 0, 0,
        ]
    };
}

// The bytes of an operation.
macro_rules! bytes {
    (Fail) => {
        op!(0 0 0 0 0)
    };
    (Halt) => {
        op!(31 0 0 0 0)
    };
    (Lose) => {
        op!(34 0 0 0 0)
    };
    (Return) => {
        op!(4 0 0 0 0)
    };
    (Back) => {
        op!(5 0 0 0 0)
    };
    (Call $to:literal $rule:literal $next:literal $fail:literal false) => {
        op!(1 $to $rule $next $fail)
    };
    (Call $to:literal $rule:literal $next:literal $fail:literal true) => {
        op!(2 $to $rule $next $fail)
    };
    (Sub $to:literal $next:literal $fail:literal) => {
        op!(3 $to $next $fail 0)
    };
    (Text $text:literal $next:literal $fail:literal) => {
        op!(11 $text $next $fail 0)
    };
    (One $set:literal $next:literal $fail:literal) => {
        op!(7 $set $next $fail 0)
    };
    (IsOne $set:literal $next:literal $fail:literal) => {
        op!(8 $set $next $fail 0)
    };
    (All $set:literal $next:literal) => {
        op!(9 $set $next 0 0)
    };
    (Note $next:literal) => {
        op!(17 $next 0 0 0)
    };
    (Try $next:literal $fail:literal) => {
        op!(14 $next $fail 0 0)
    };
    (Not $next:literal $fail:literal) => {
        op!(32 $next $fail 0 0)
    };
    (Commit $next:literal) => {
        op!(15 $next 0 0 0)
    };
    (Ahead $next:literal) => {
        op!(16 $next 0 0 0)
    };
    (Start $next:literal $fail:literal) => {
        op!(18 $next $fail 0 0)
    };
    (End $next:literal $fail:literal) => {
        op!(19 $next $fail 0 0)
    };
    (Leaf $rule:literal $next:literal) => {
        op!(20 $rule $next 0 0)
    };
    (Miss $rule:literal $next:literal) => {
        op!(33 $rule $next 0 0)
    };
    (Nested $opening:literal $closing:literal $next:literal $fail:literal) => {
        op!(21 $opening $closing $next $fail)
    };
}

// The fused operation of an operation, or that of the second column.
macro_rules! fused {
    (($($op:tt)*)) => {
        fused!($($op)*)
    };
    (($($op:tt)*) ($($fused:tt)*)) => {
        fused!($($fused)*)
    };
    (Plain) => {
        Fused::Plain
    };
    (Byte $byte:literal $next:literal $fail:literal) => {
        Fused::Byte { byte: $byte, next: $next, fail: $fail }
    };
    (IsByte $byte:literal $next:literal $fail:literal) => {
        Fused::IsByte { byte: $byte, next: $next, fail: $fail }
    };
    (OneAll $set:literal $second:literal $next:literal $fail:literal) => {
        Fused::OneAll { set: $set, second: $second, next: $next, fail: $fail }
    };
    (ByteAll $byte:literal $second:literal $next:literal $fail:literal) => {
        Fused::ByteAll { byte: $byte, second: $second, next: $next, fail: $fail }
    };
    (ByteReturn $byte:literal $next:literal $fail:literal) => {
        Fused::ByteReturn { byte: $byte, next: $next, fail: $fail }
    };
    (AllReturn $set:literal $next:literal) => {
        Fused::AllReturn { set: $set, next: $next }
    };
    (Renew $next:literal $fail:literal) => {
        Fused::Renew { next: $next, fail: $fail }
    };
    (CallCall $to:literal $rule:literal $next:literal $fail:literal $counts:literal
        $second:literal $after:literal $other:literal $inner:literal) => {
        Fused::CallCall {
            to: $to,
            outer: CallFrame { rule: $rule, next: $next, fail: $fail, counts: $counts },
            inner: CallFrame { rule: $second, next: $after, fail: $other, counts: $inner },
        }
    };
    (Text $first:literal $text:literal $next:literal $fail:literal) => {
        Fused::Text { first: $first, text: $text, next: $next, fail: $fail }
    };
    (Tests $table:literal) => {
        Fused::Tests { table: $table }
    };
    (Fail) => {
        Fused::Fail
    };
    (Return) => {
        Fused::Return
    };
    (Back) => {
        Fused::Back
    };
    (Call $to:literal $rule:literal $next:literal $fail:literal $counts:literal) => {
        Fused::Call { to: $to, rule: $rule, next: $next, fail: $fail, counts: $counts }
    };
    (Sub $to:literal $next:literal $fail:literal) => {
        Fused::Sub { to: $to, next: $next, fail: $fail }
    };
    (One $set:literal $next:literal $fail:literal) => {
        Fused::One { set: $set, next: $next, fail: $fail }
    };
    (IsOne $set:literal $next:literal $fail:literal) => {
        Fused::IsOne { set: $set, next: $next, fail: $fail }
    };
    (All $set:literal $next:literal) => {
        Fused::All { set: $set, next: $next }
    };
    (Note $next:literal) => {
        Fused::Note { next: $next }
    };
    (Try $next:literal $fail:literal) => {
        Fused::Try { next: $next, fail: $fail }
    };
    (Not $next:literal $fail:literal) => {
        Fused::Not { next: $next, fail: $fail }
    };
    (Commit $next:literal) => {
        Fused::Commit { next: $next }
    };
    (Ahead $next:literal) => {
        Fused::Ahead { next: $next }
    };
}

// The operations of a list.
macro_rules! all_bytes {
    ($(($($op:tt)*) $(=> ($($fused:tt)*))?)*) => {
        [$(bytes!($($op)*)),*]
    };
}

// The fused operations of a list.
macro_rules! all_fused {
    ($(($($op:tt)*) $(=> ($($fused:tt)*))?)*) => {
        [$(fused!(($($op)*) $(($($fused)*))?)),*]
    };
}

// Byte sets, by the bits of the characters of ASCII.
macro_rules! byte_sets {
    ($(
        $byte0:literal $byte1:literal $byte2:literal $byte3:literal $byte4:literal $byte5:literal
        $byte6:literal $byte7:literal $byte8:literal $byte9:literal $byte10:literal $byte11:literal
        $byte12:literal $byte13:literal $byte14:literal $byte15:literal
    ;)*) => {
        [$(
            ($byte0 >> 0 & 1) as u8, ($byte0 >> 1 & 1) as u8, ($byte0 >> 2 & 1) as u8,
            ($byte0 >> 3 & 1) as u8, ($byte0 >> 4 & 1) as u8, ($byte0 >> 5 & 1) as u8,
            ($byte0 >> 6 & 1) as u8, ($byte0 >> 7 & 1) as u8, ($byte1 >> 0 & 1) as u8,
            ($byte1 >> 1 & 1) as u8, ($byte1 >> 2 & 1) as u8, ($byte1 >> 3 & 1) as u8,
            ($byte1 >> 4 & 1) as u8, ($byte1 >> 5 & 1) as u8, ($byte1 >> 6 & 1) as u8,
            ($byte1 >> 7 & 1) as u8, ($byte2 >> 0 & 1) as u8, ($byte2 >> 1 & 1) as u8,
            ($byte2 >> 2 & 1) as u8, ($byte2 >> 3 & 1) as u8, ($byte2 >> 4 & 1) as u8,
            ($byte2 >> 5 & 1) as u8, ($byte2 >> 6 & 1) as u8, ($byte2 >> 7 & 1) as u8,
            ($byte3 >> 0 & 1) as u8, ($byte3 >> 1 & 1) as u8, ($byte3 >> 2 & 1) as u8,
            ($byte3 >> 3 & 1) as u8, ($byte3 >> 4 & 1) as u8, ($byte3 >> 5 & 1) as u8,
            ($byte3 >> 6 & 1) as u8, ($byte3 >> 7 & 1) as u8, ($byte4 >> 0 & 1) as u8,
            ($byte4 >> 1 & 1) as u8, ($byte4 >> 2 & 1) as u8, ($byte4 >> 3 & 1) as u8,
            ($byte4 >> 4 & 1) as u8, ($byte4 >> 5 & 1) as u8, ($byte4 >> 6 & 1) as u8,
            ($byte4 >> 7 & 1) as u8, ($byte5 >> 0 & 1) as u8, ($byte5 >> 1 & 1) as u8,
            ($byte5 >> 2 & 1) as u8, ($byte5 >> 3 & 1) as u8, ($byte5 >> 4 & 1) as u8,
            ($byte5 >> 5 & 1) as u8, ($byte5 >> 6 & 1) as u8, ($byte5 >> 7 & 1) as u8,
            ($byte6 >> 0 & 1) as u8, ($byte6 >> 1 & 1) as u8, ($byte6 >> 2 & 1) as u8,
            ($byte6 >> 3 & 1) as u8, ($byte6 >> 4 & 1) as u8, ($byte6 >> 5 & 1) as u8,
            ($byte6 >> 6 & 1) as u8, ($byte6 >> 7 & 1) as u8, ($byte7 >> 0 & 1) as u8,
            ($byte7 >> 1 & 1) as u8, ($byte7 >> 2 & 1) as u8, ($byte7 >> 3 & 1) as u8,
            ($byte7 >> 4 & 1) as u8, ($byte7 >> 5 & 1) as u8, ($byte7 >> 6 & 1) as u8,
            ($byte7 >> 7 & 1) as u8, ($byte8 >> 0 & 1) as u8, ($byte8 >> 1 & 1) as u8,
            ($byte8 >> 2 & 1) as u8, ($byte8 >> 3 & 1) as u8, ($byte8 >> 4 & 1) as u8,
            ($byte8 >> 5 & 1) as u8, ($byte8 >> 6 & 1) as u8, ($byte8 >> 7 & 1) as u8,
            ($byte9 >> 0 & 1) as u8, ($byte9 >> 1 & 1) as u8, ($byte9 >> 2 & 1) as u8,
            ($byte9 >> 3 & 1) as u8, ($byte9 >> 4 & 1) as u8, ($byte9 >> 5 & 1) as u8,
            ($byte9 >> 6 & 1) as u8, ($byte9 >> 7 & 1) as u8, ($byte10 >> 0 & 1) as u8,
            ($byte10 >> 1 & 1) as u8, ($byte10 >> 2 & 1) as u8, ($byte10 >> 3 & 1) as u8,
            ($byte10 >> 4 & 1) as u8, ($byte10 >> 5 & 1) as u8, ($byte10 >> 6 & 1) as u8,
            ($byte10 >> 7 & 1) as u8, ($byte11 >> 0 & 1) as u8, ($byte11 >> 1 & 1) as u8,
            ($byte11 >> 2 & 1) as u8, ($byte11 >> 3 & 1) as u8, ($byte11 >> 4 & 1) as u8,
            ($byte11 >> 5 & 1) as u8, ($byte11 >> 6 & 1) as u8, ($byte11 >> 7 & 1) as u8,
            ($byte12 >> 0 & 1) as u8, ($byte12 >> 1 & 1) as u8, ($byte12 >> 2 & 1) as u8,
            ($byte12 >> 3 & 1) as u8, ($byte12 >> 4 & 1) as u8, ($byte12 >> 5 & 1) as u8,
            ($byte12 >> 6 & 1) as u8, ($byte12 >> 7 & 1) as u8, ($byte13 >> 0 & 1) as u8,
            ($byte13 >> 1 & 1) as u8, ($byte13 >> 2 & 1) as u8, ($byte13 >> 3 & 1) as u8,
            ($byte13 >> 4 & 1) as u8, ($byte13 >> 5 & 1) as u8, ($byte13 >> 6 & 1) as u8,
            ($byte13 >> 7 & 1) as u8, ($byte14 >> 0 & 1) as u8, ($byte14 >> 1 & 1) as u8,
            ($byte14 >> 2 & 1) as u8, ($byte14 >> 3 & 1) as u8, ($byte14 >> 4 & 1) as u8,
            ($byte14 >> 5 & 1) as u8, ($byte14 >> 6 & 1) as u8, ($byte14 >> 7 & 1) as u8,
            ($byte15 >> 0 & 1) as u8, ($byte15 >> 1 & 1) as u8, ($byte15 >> 2 & 1) as u8,
            ($byte15 >> 3 & 1) as u8, ($byte15 >> 4 & 1) as u8, ($byte15 >> 5 & 1) as u8,
            ($byte15 >> 6 & 1) as u8, ($byte15 >> 7 & 1) as u8, 5, 5, 5, 5, 5, 5, 5, 5, 5, 5, 5, 5, 5,
            5, 5, 5, 5, 5, 5, 5, 5, 5, 5, 5, 5, 5, 5, 5, 5, 5, 5, 5, 5, 5, 5, 5, 5, 5, 5, 5, 5, 5, 5, 5,
            5, 5, 5, 5, 5, 5, 5, 5, 5, 5, 5, 5, 5, 5, 5, 5, 5, 5, 5, 5, 5, 5, 5, 5, 5, 5, 5, 5, 5, 5, 5,
            5, 5, 5, 5, 5, 5, 5, 5, 5, 5, 5, 5, 5, 5, 5, 5, 5, 5, 5, 5, 5, 5, 5, 5, 5, 5, 5, 5, 5, 5, 5,
            5, 5, 5, 5, 5, 5, 5, 5, 5, 5, 5, 5, 5, 5, 5, 5, 5, 5, 5, 5, 5, 5,
        )*]
    };
}

// Tables of tests, by the classes of bytes that these tell apart, and of the end.
macro_rules! tables {
    ($(
        $class0:literal $class1:literal $class2:literal $class3:literal $class4:literal $class5:literal
        $class6:literal $class7:literal $class8:literal $class9:literal $class10:literal
        $class11:literal $class12:literal $class13:literal $class14:literal $class15:literal
        $class16:literal $class17:literal $class18:literal $class19:literal $class20:literal
        $class21:literal
    ;)*) => {
        [$(
            word!($class0), word!($class0), word!($class0), word!($class0), word!($class0),
            word!($class0), word!($class0), word!($class0), word!($class0), word!($class1),
            word!($class2), word!($class0), word!($class0), word!($class2), word!($class0),
            word!($class0), word!($class0), word!($class0), word!($class0), word!($class0),
            word!($class0), word!($class0), word!($class0), word!($class0), word!($class0),
            word!($class0), word!($class0), word!($class0), word!($class0), word!($class0),
            word!($class0), word!($class0), word!($class1), word!($class3), word!($class4),
            word!($class5), word!($class6), word!($class0), word!($class7), word!($class0),
            word!($class8), word!($class0), word!($class9), word!($class10), word!($class0),
            word!($class11), word!($class0), word!($class12), word!($class11), word!($class11),
            word!($class11), word!($class11), word!($class11), word!($class11), word!($class11),
            word!($class11), word!($class11), word!($class11), word!($class0), word!($class0),
            word!($class0), word!($class0), word!($class0), word!($class13), word!($class14),
            word!($class15), word!($class15), word!($class15), word!($class15), word!($class15),
            word!($class15), word!($class15), word!($class15), word!($class15), word!($class15),
            word!($class15), word!($class15), word!($class15), word!($class15), word!($class15),
            word!($class16), word!($class15), word!($class15), word!($class15), word!($class15),
            word!($class15), word!($class15), word!($class15), word!($class15), word!($class15),
            word!($class15), word!($class0), word!($class0), word!($class0), word!($class17),
            word!($class18), word!($class0), word!($class15), word!($class15), word!($class15),
            word!($class15), word!($class15), word!($class15), word!($class15), word!($class15),
            word!($class15), word!($class15), word!($class15), word!($class15), word!($class15),
            word!($class15), word!($class15), word!($class15), word!($class15), word!($class15),
            word!($class15), word!($class15), word!($class15), word!($class15), word!($class15),
            word!($class15), word!($class15), word!($class15), word!($class19), word!($class20),
            word!($class0), word!($class21), word!($class0), word!($class0),
        )*]
    };
}

// The fast code.
macro_rules! fast_code {
    ($form:ident) => {
        $form! {
            (Fail) (Halt) => (Plain) (Lose) => (Plain) (End 69 70) => (Plain) (Sub 71 1 2)
            (Call 73 2 1 2 true) (Call 75 3 1 2 true) (Call 77 4 1 2 true) (Call 79 5 1 2 true)
            (Call 81 6 1 2 true) (Call 83 7 1 2 true) (Call 85 8 1 2 true) (Call 87 9 1 2 true)
            (Sub 89 1 2) (Call 91 11 1 2 true) (Call 93 12 1 2 true) (Call 95 13 1 2 true)
            (Call 97 14 1 2 true) (Call 99 15 1 2 true) (Sub 101 1 2) (Call 103 17 1 2 true)
            (Call 105 18 1 2 true) (Sub 107 1 2) (Sub 109 1 2) (Sub 111 1 2) (Sub 113 1 2) (Sub 115 1 2)
            (Call 117 24 1 2 true) (Call 119 25 1 2 true) (Call 121 26 1 2 true) (Call 123 27 1 2 true)
            (Call 125 28 1 2 true) (Call 127 29 1 2 true) (Call 129 30 1 2 true)
            (Call 131 31 1 2 true) => (CallCall 77 31 1 2 true 4 805 0 true)
            (Call 133 32 1 2 true) => (CallCall 77 32 1 2 true 4 837 0 true)
            (Call 135 33 1 2 true) => (CallCall 77 33 1 2 true 4 882 0 true)
            (Call 137 34 1 2 true) => (CallCall 77 34 1 2 true 4 929 0 true) (Call 139 35 1 2 true)
            (Call 141 36 1 2 true) (Call 143 37 1 2 true) (Call 145 38 1 2 true) (Call 147 39 1 2 true)
            (Call 149 40 1 2 true) (Call 151 41 1 2 true) (Sub 153 1 2) (Sub 155 1 2)
            (Call 157 44 1 2 true) => (CallCall 1167 44 1 2 true 54 1166 0 true) (Call 159 45 1 2 true)
            (Call 161 46 1 2 true) => (CallCall 163 46 1 2 true 47 1186 0 true)
            (Call 163 47 1 2 true) => (CallCall 1216 47 1 2 true 55 1215 0 true) (Call 165 48 1 2 true)
            (Call 167 49 1 2 true) (Call 169 50 1 2 true) (Call 171 51 1 2 true) (Call 173 52 1 2 true)
            (Call 175 53 1 2 true) (Call 177 54 1 2 true) (Call 179 55 1 2 true) (Call 181 56 1 2 true)
            (Sub 183 1 2) (Sub 185 1 2) (Sub 187 1 2) (Sub 189 1 2) (Sub 191 1 2) (Sub 193 1 2)
            (Call 195 63 1 2 true) (Call 197 64 1 2 true) (Call 199 65 1 2 true) (Leaf 0 1) => (Plain)
            (Miss 0 2) => (Plain) (Start 205 0) => (Plain) (Back) (IsOne 6 287 288) (Return)
            (Text 0 76 0) => (ByteReturn 61 76 0) (Return) (Text 1 78 0) => (ByteReturn 123 78 0)
            (Return) (Text 2 80 0) => (ByteReturn 125 80 0) (Return)
            (Text 3 82 0) => (ByteReturn 40 82 0) (Return) (Text 4 84 0) => (ByteReturn 41 84 0)
            (Return) (Text 5 86 0) => (ByteReturn 91 86 0) (Return)
            (Text 6 88 0) => (ByteReturn 93 88 0) (Return) (IsOne 8 384 385) => (Tests 0) (Back)
            (Text 7 92 0) => (ByteReturn 95 92 0) (Return) (Text 8 94 0) => (ByteReturn 64 94 0)
            (Return) (Text 9 96 0) => (ByteReturn 36 96 0) (Return)
            (Text 10 98 0) => (ByteReturn 33 98 0) (Return) (Text 11 397 0) => (Byte 35 397 0) (Return)
            (Call 99 15 398 0 true) (Back) (IsOne 15 417 418) => (Tests 129) (Return)
            (IsOne 18 488 489) => (Tests 258) (Return) (IsOne 21 679 680) => (Tests 387) (Back)
            (IsOne 22 742 743) => (Tests 516) (Back) (IsOne 20 770 771) => (IsByte 38 770 771) (Back)
            (IsOne 17 773 774) => (IsByte 126 773 774) (Back) (IsOne 31 776 777) => (Tests 645) (Back)
            (Text 12 118 0) => (ByteReturn 38 118 0) (Return) (Text 10 120 0) => (ByteReturn 33 120 0)
            (Return) (Text 13 122 0) => (ByteReturn 126 122 0) (Return)
            (Text 14 124 0) => (ByteReturn 124 124 0) (Return) (Text 15 126 0) => (ByteReturn 63 126 0)
            (Return) (Text 16 128 0) => (ByteReturn 42 128 0) (Return)
            (Text 17 130 0) => (ByteReturn 43 130 0) (Return) (Call 77 4 805 0 true) (Return)
            (Call 77 4 837 0 true) (Return) (Call 77 4 882 0 true) (Return) (Call 77 4 929 0 true)
            (Return) (One 40 983 0) => (OneAll 40 40 140 0) (Return) (IsOne 40 985 984) (Return)
            (Text 19 144 0) => (ByteReturn 44 144 0) (Return) (Text 20 996 0) => (Text 80 20 996 0)
            (Return) (Text 21 1041 0) => (Text 80 21 1041 0) (Return)
            (Text 22 1090 0) => (Text 80 22 1090 0) (Return) (Not 1163 1162) (Return) (One 44 154 0)
            (Back) (One 45 156 0) (Back) (Call 1167 54 1166 0 true) (Return)
            (Text 23 1169 0) => (Byte 94 1169 0) (Return)
            (Call 163 47 1186 0 true) => (CallCall 1216 47 1186 0 true 55 1215 0 true) (Return)
            (Call 1216 55 1215 0 true) (Return) (All 46 1218) (Return)
            (IsOne 47 1228 1227) => (IsByte 92 1228 1227) (Return) (Text 24 1229 0) => (Byte 92 1229 0)
            (Return) (Text 25 1239 0) => (Byte 120 1239 0) (Return)
            (Text 26 1242 0) => (Byte 117 1242 0) (Return) (One 52 176 0) (Return)
            (Text 27 178 0) => (ByteReturn 34 178 0) (Return) (Text 28 180 0) => (ByteReturn 39 180 0)
            (Return) (Text 29 182 0) => (Text 46 29 182 0) (Return)
            (Text 30 184 1248) => (Byte 10 184 1248) (Back) (One 1 186 1249) (Back)
            (Text 32 1253 0) => (Text 47 32 1253 0) (Back) (Text 33 1320 0) => (Text 47 33 1320 0)
            (Back) (Nested 33 34 192 1384) => (Plain) (Back) (One 1 194 0) (Back)
            (Text 35 1397 0) => (Text 47 35 1397 0) (Return) (Text 36 1399 0) => (Text 47 36 1399 0)
            (Return) (All 56 1400) (Return) (IsOne 0 272 271) (End 284 285) => (Plain)
            (IsOne 0 240 239) => (Tests 774) (IsOne 5 252 253) => (Tests 903)
            (IsOne 0 208 207) => (Tests 1032) (IsOne 4 220 221) => (Tests 1161)
            (IsOne 3 212 206) => (Tests 1290) (One 1 205 209) (IsOne 2 210 207) => (Tests 1419)
            (Text 30 205 211) => (Byte 10 205 211) (Text 31 205 207) => (Text 13 31 205 207)
            (Try 213 206) (Sub 191 215 0) (Commit 207) (IsOne 0 216 214) (One 1 215 217)
            (IsOne 2 218 214) (Text 30 215 219) => (Byte 10 215 219)
            (Text 31 215 214) => (Text 13 31 215 214) (Try 224 203) (Note 203) (Try 223 203)
            (IsOne 0 227 226) (Call 195 63 225 0 true) (Commit 222) => (Renew 223 203) (IsOne 3 231 224)
            (One 1 223 228) (IsOne 2 229 226) (Text 30 223 230) => (Byte 10 223 230)
            (Text 31 223 226) => (Text 13 31 223 226) (Try 232 224) (Sub 191 234 0) (Commit 226)
            (IsOne 0 235 233) (One 1 234 236) (IsOne 2 237 233) (Text 30 234 238) => (Byte 10 234 238)
            (Text 31 234 233) => (Text 13 31 234 233) (IsOne 3 244 204) => (Tests 1548) (One 1 203 241)
            (IsOne 2 242 239) => (Tests 1677) (Text 30 203 243) => (Byte 10 203 243)
            (Text 31 203 239) => (Text 13 31 203 239) (Try 245 204) (Sub 191 247 0) (Commit 239)
            (IsOne 0 248 246) (One 1 247 249) (IsOne 2 250 246) (Text 30 247 251) => (Byte 10 247 251)
            (Text 31 247 246) => (Text 13 31 247 246) (Try 256 201) (Note 201) (Try 255 201)
            (IsOne 0 259 258) (Call 73 2 257 0 true) (Commit 254) => (Renew 255 201) (IsOne 3 263 256)
            (One 1 255 260) (IsOne 2 261 258) (Text 30 255 262) => (Byte 10 255 262)
            (Text 31 255 258) => (Text 13 31 255 258) (Try 264 256) (Sub 191 266 0) (Commit 258)
            (IsOne 0 267 265) (One 1 266 268) (IsOne 2 269 265) (Text 30 266 270) => (Byte 10 266 270)
            (Text 31 266 265) => (Text 13 31 266 265) (IsOne 3 276 202) (One 1 201 273)
            (IsOne 2 274 271) (Text 30 201 275) => (Byte 10 201 275)
            (Text 31 201 271) => (Text 13 31 201 271) (Try 277 202) (Sub 191 279 0) (Commit 271)
            (IsOne 0 280 278) (One 1 279 281) (IsOne 2 282 278) (Text 30 279 283) => (Byte 10 279 283)
            (Text 31 279 278) => (Text 13 31 279 278) (Leaf 0 72) => (Plain) (Miss 0 0) => (Plain)
            (Call 197 64 74 0 true) (Try 289 286) (Note 286) (Call 151 41 299 0 true) (Commit 74)
            (IsOne 0 371 370) (Call 79 5 290 0 true) (IsOne 0 358 357) (Call 103 17 291 0 true)
            (IsOne 0 345 344) (Call 77 4 293 0 true) (IsOne 0 315 314) => (Tests 1806)
            (IsOne 7 327 328) => (Tests 1935) (IsOne 0 302 301) (Call 75 3 297 0 true) (IsOne 3 306 300)
            (One 1 299 303) (IsOne 2 304 301) (Text 30 299 305) => (Byte 10 299 305)
            (Text 31 299 301) => (Text 13 31 299 301) (Try 307 300) (Sub 191 309 0) (Commit 301)
            (IsOne 0 310 308) (One 1 309 311) (IsOne 2 312 308) (Text 30 309 313) => (Byte 10 309 313)
            (Text 31 309 308) => (Text 13 31 309 308) (IsOne 3 319 298) => (Tests 2064) (One 1 297 316)
            (IsOne 2 317 314) => (Tests 2193) (Text 30 297 318) => (Byte 10 297 318)
            (Text 31 297 314) => (Text 13 31 297 314) (Try 320 298) (Sub 191 322 0) (Commit 314)
            (IsOne 0 323 321) (One 1 322 324) (IsOne 2 325 321) (Text 30 322 326) => (Byte 10 322 326)
            (Text 31 322 321) => (Text 13 31 322 321) (IsOne 8 330 331) (Note 295)
            (IsOne 13 342 343) => (Tests 2322) (IsOne 9 333 334) (Note 329)
            (IsOne 12 340 341) => (Tests 2451) (IsOne 10 336 337) => (IsByte 95 336 337) (Note 332)
            (IsOne 11 338 339) => (Tests 2580) (Call 91 11 295 335 true) (Note 335)
            (Call 93 12 295 332 true) (Note 332) (Call 95 13 295 329 true) (Note 329)
            (Call 97 14 295 295 true) (Note 295) (IsOne 3 349 296) (One 1 295 346) (IsOne 2 347 344)
            (Text 30 295 348) => (Byte 10 295 348) (Text 31 295 344) => (Text 13 31 295 344)
            (Try 350 296) (Sub 191 352 0) (Commit 344) (IsOne 0 353 351) (One 1 352 354)
            (IsOne 2 355 351) (Text 30 352 356) => (Byte 10 352 356)
            (Text 31 352 351) => (Text 13 31 352 351) (IsOne 3 362 294) (One 1 293 359)
            (IsOne 2 360 357) (Text 30 293 361) => (Byte 10 293 361)
            (Text 31 293 357) => (Text 13 31 293 357) (Try 363 294) (Sub 191 365 0) (Commit 357)
            (IsOne 0 366 364) (One 1 365 367) (IsOne 2 368 364) (Text 30 365 369) => (Byte 10 365 369)
            (Text 31 365 364) => (Text 13 31 365 364) (IsOne 3 375 292) (One 1 291 372)
            (IsOne 2 373 370) (Text 30 291 374) => (Byte 10 291 374)
            (Text 31 291 370) => (Text 13 31 291 370) (Try 376 292) (Sub 191 378 0) (Commit 370)
            (IsOne 0 379 377) (One 1 378 380) (IsOne 2 381 377) (Text 30 378 382) => (Byte 10 378 382)
            (Text 31 378 377) => (Text 13 31 378 377) (Call 97 14 90 0 true) (IsOne 9 387 388)
            (Note 383) (IsOne 12 394 395) => (IsByte 36 394 395)
            (IsOne 10 390 391) => (IsByte 95 390 391) (Note 386) (IsOne 11 392 393) => (Tests 2709)
            (Call 91 11 90 389 true) (Note 389) (Call 93 12 90 386 true) (Note 386)
            (Call 95 13 90 383 true) (Note 383) (All 14 100) => (AllReturn 14 100)
            (One 6 396 0) => (OneAll 6 14 100 0) (IsOne 0 401 400) (Call 75 3 102 0 true)
            (IsOne 3 405 399) (One 1 398 402) (IsOne 2 403 400) (Text 30 398 404) => (Byte 10 398 404)
            (Text 31 398 400) => (Text 13 31 398 400) (Try 406 399) (Sub 191 408 0) (Commit 400)
            (IsOne 0 409 407) (One 1 408 410) (IsOne 2 411 407) (Text 30 408 412) => (Byte 10 408 412)
            (Text 31 408 407) => (Text 13 31 408 407) (IsOne 0 433 432) => (Tests 2838)
            (IsOne 16 445 446) (IsOne 0 420 419) (Call 105 18 413 0 true) (Call 123 27 415 415 true)
            (Note 415) (IsOne 3 424 416) (One 1 415 421) (IsOne 2 422 419)
            (Text 30 415 423) => (Byte 10 415 423) (Text 31 415 419) => (Text 13 31 415 419)
            (Try 425 416) (Sub 191 427 0) (Commit 419) (IsOne 0 428 426) (One 1 427 429)
            (IsOne 2 430 426) (Text 30 427 431) => (Byte 10 427 431)
            (Text 31 427 426) => (Text 13 31 427 426) (IsOne 3 437 414) (One 1 413 434)
            (IsOne 2 435 432) => (Tests 2967) (Text 30 413 436) => (Byte 10 413 436)
            (Text 31 413 432) => (Text 13 31 413 432) (Try 438 414) (Sub 191 440 0) (Commit 432)
            (IsOne 0 441 439) (One 1 440 442) (IsOne 2 443 439) (Text 30 440 444) => (Byte 10 440 444)
            (Text 31 440 439) => (Text 13 31 440 439) (Try 449 104) (Note 104) (Try 448 104)
            (IsOne 0 452 451) => (Tests 3096) (IsOne 17 467 468) => (IsByte 126 467 468)
            (Commit 447) => (Renew 448 104) (IsOne 3 456 449) (One 1 448 453)
            (IsOne 2 454 451) => (Tests 3225) (Text 30 448 455) => (Byte 10 448 455)
            (Text 31 448 451) => (Text 13 31 448 451) (Try 457 449) (Sub 191 459 0) (Commit 451)
            (IsOne 0 460 458) (One 1 459 461) (IsOne 2 462 458) (Text 30 459 463) => (Byte 10 459 463)
            (Text 31 459 458) => (Text 13 31 459 458) (IsOne 0 470 469) (Call 105 18 450 0 true)
            (Call 123 27 464 0 true) (Call 121 26 464 466 true) (Note 466) (IsOne 3 474 465)
            (One 1 464 471) (IsOne 2 472 469) (Text 30 464 473) => (Byte 10 464 473)
            (Text 31 464 469) => (Text 13 31 464 469) (Try 475 465) (Sub 191 477 0) (Commit 469)
            (IsOne 0 478 476) (One 1 477 479) (IsOne 2 480 476) (Text 30 477 481) => (Byte 10 477 481)
            (Text 31 477 476) => (Text 13 31 477 476) (IsOne 0 619 618) => (Tests 3354)
            (IsOne 30 631 632) (IsOne 0 543 542) => (Tests 3483) (IsOne 21 556 557) => (Tests 3612)
            (IsOne 0 508 507) => (Tests 3741) (IsOne 19 520 521) => (Tests 3870) (Try 490 486)
            (Note 486) (Call 99 15 492 0 true) (Commit 486) (IsOne 0 495 494) (Call 75 3 491 0 true)
            (IsOne 3 499 493) (One 1 492 496) (IsOne 2 497 494) (Text 30 492 498) => (Byte 10 492 498)
            (Text 31 492 494) => (Text 13 31 492 494) (Try 500 493) (Sub 191 502 0) (Commit 494)
            (IsOne 0 503 501) (One 1 502 504) (IsOne 2 505 501) (Text 30 502 506) => (Byte 10 502 506)
            (Text 31 502 501) => (Text 13 31 502 501) (IsOne 3 512 487) => (Tests 3999) (One 1 486 509)
            (IsOne 2 510 507) => (Tests 4128) (Text 30 486 511) => (Byte 10 486 511)
            (Text 31 486 507) => (Text 13 31 486 507) (Try 513 487) (Sub 191 515 0) (Commit 507)
            (IsOne 0 516 514) (One 1 515 517) (IsOne 2 518 514) (Text 30 515 519) => (Byte 10 515 519)
            (Text 31 515 514) => (Text 13 31 515 514) (Try 524 484) (Note 484) (Try 523 484)
            (IsOne 0 527 526) => (Tests 4257) (IsOne 20 540 541) => (IsByte 38 540 541)
            (Commit 522) => (Renew 523 484) (IsOne 3 531 524) (One 1 523 528)
            (IsOne 2 529 526) => (Tests 4386) (Text 30 523 530) => (Byte 10 523 530)
            (Text 31 523 526) => (Text 13 31 523 526) (Try 532 524) (Sub 191 534 0) (Commit 526)
            (IsOne 0 535 533) (One 1 534 536) (IsOne 2 537 533) (Text 30 534 538) => (Byte 10 534 538)
            (Text 31 534 533) => (Text 13 31 534 533) (Call 119 25 525 0 true)
            (Call 117 24 525 539 true) (Note 539) (IsOne 3 547 485) => (Tests 4515) (One 1 484 544)
            (IsOne 2 545 542) => (Tests 4644) (Text 30 484 546) => (Byte 10 484 546)
            (Text 31 484 542) => (Text 13 31 484 542) (Try 548 485) (Sub 191 550 0) (Commit 542)
            (IsOne 0 551 549) (One 1 550 552) (IsOne 2 553 549) (Text 30 550 554) => (Byte 10 550 554)
            (Text 31 550 549) => (Text 13 31 550 549) (IsOne 22 591 592) => (Tests 4773) (Try 558 555)
            (Note 555) (Call 81 6 562 0 true) (Commit 482) (IsOne 0 578 577) (Call 83 7 559 0 true)
            (IsOne 0 565 564) (Call 103 17 560 0 true) (IsOne 3 569 563) (One 1 562 566)
            (IsOne 2 567 564) (Text 30 562 568) => (Byte 10 562 568)
            (Text 31 562 564) => (Text 13 31 562 564) (Try 570 563) (Sub 191 572 0) (Commit 564)
            (IsOne 0 573 571) (One 1 572 574) (IsOne 2 575 571) (Text 30 572 576) => (Byte 10 572 576)
            (Text 31 572 571) => (Text 13 31 572 571) (IsOne 3 582 561) (One 1 560 579)
            (IsOne 2 580 577) (Text 30 560 581) => (Byte 10 560 581)
            (Text 31 560 577) => (Text 13 31 560 577) (Try 583 561) (Sub 191 585 0) (Commit 577)
            (IsOne 0 586 584) (One 1 585 587) (IsOne 2 588 584) (Text 30 585 589) => (Byte 10 585 589)
            (Text 31 585 584) => (Text 13 31 585 584)
            (Call 161 46 482 0 true) => (CallCall 163 46 482 0 true 47 1186 0 true) (IsOne 23 594 595)
            (Note 590) (IsOne 29 616 617) => (IsByte 94 616 617) (IsOne 24 597 598) (Note 593)
            (IsOne 28 614 615) => (Tests 4902) (IsOne 25 600 601) (Note 596)
            (IsOne 6 612 613) => (Tests 5031) (IsOne 26 603 604) (Note 599)
            (IsOne 27 610 611) => (Tests 5160) (IsOne 27 606 607) => (IsByte 80 606 607) (Note 602)
            (IsOne 27 608 609) => (Tests 5289) (Call 147 39 482 605 true) (Note 605)
            (Call 145 38 482 602 true) (Note 602) (Call 149 40 482 599 true) (Note 599)
            (Call 151 41 482 596 true) (Note 596)
            (Call 157 44 482 593 true) => (CallCall 1167 44 482 593 true 54 1166 0 true) (Note 593)
            (Call 159 45 482 590 true) (Note 590) (IsOne 3 623 483) (One 1 482 620)
            (IsOne 2 621 618) => (Tests 5418) (Text 30 482 622) => (Byte 10 482 622)
            (Text 31 482 618) => (Text 13 31 482 618) (Try 624 483) (Sub 191 626 0) (Commit 618)
            (IsOne 0 627 625) (One 1 626 628) (IsOne 2 629 625) (Text 30 626 630) => (Byte 10 626 630)
            (Text 31 626 625) => (Text 13 31 626 625) (Try 635 106) (Note 106) (Try 634 106)
            (IsOne 0 638 637) => (Tests 5547) (IsOne 31 651 652) => (Tests 5676)
            (Commit 633) => (Renew 634 106) (IsOne 3 642 635) => (Tests 5805) (One 1 634 639)
            (IsOne 2 640 637) => (Tests 5934) (Text 30 634 641) => (Byte 10 634 641)
            (Text 31 634 637) => (Text 13 31 634 637) (Try 643 635) (Sub 191 645 0) (Commit 637)
            (IsOne 0 646 644) (One 1 645 647) (IsOne 2 648 644) (Text 30 645 649) => (Byte 10 645 649)
            (Text 31 645 644) => (Text 13 31 645 644)
            (Call 137 34 636 0 true) => (CallCall 77 34 636 0 true 4 929 0 true) (IsOne 32 654 655)
            (Note 650) (IsOne 39 676 677) => (IsByte 123 676 677) (IsOne 33 657 658) (Note 653)
            (IsOne 39 674 675) => (Tests 6063) (IsOne 34 660 661) (Note 656)
            (IsOne 39 672 673) => (Tests 6192) (IsOne 35 663 664) (Note 659)
            (IsOne 38 670 671) => (Tests 6321) (IsOne 36 666 667) => (IsByte 63 666 667) (Note 662)
            (IsOne 37 668 669) => (Tests 6450) (Call 125 28 636 665 true) (Note 665)
            (Call 127 29 636 662 true) (Note 662) (Call 129 30 636 659 true) (Note 659)
            (Call 131 31 636 656 true) => (CallCall 77 31 636 656 true 4 805 0 true) (Note 656)
            (Call 133 32 636 653 true) => (CallCall 77 32 636 653 true 4 837 0 true) (Note 653)
            (Call 135 33 636 650 true) => (CallCall 77 33 636 650 true 4 882 0 true) (Note 650)
            (IsOne 22 714 715) => (Tests 6579) (Try 681 678) (Note 678) (Call 81 6 685 0 true)
            (Commit 108) (IsOne 0 701 700) (Call 83 7 682 0 true) (IsOne 0 688 687)
            (Call 103 17 683 0 true) (IsOne 3 692 686) (One 1 685 689) (IsOne 2 690 687)
            (Text 30 685 691) => (Byte 10 685 691) (Text 31 685 687) => (Text 13 31 685 687)
            (Try 693 686) (Sub 191 695 0) (Commit 687) (IsOne 0 696 694) (One 1 695 697)
            (IsOne 2 698 694) (Text 30 695 699) => (Byte 10 695 699)
            (Text 31 695 694) => (Text 13 31 695 694) (IsOne 3 705 684) (One 1 683 702)
            (IsOne 2 703 700) (Text 30 683 704) => (Byte 10 683 704)
            (Text 31 683 700) => (Text 13 31 683 700) (Try 706 684) (Sub 191 708 0) (Commit 700)
            (IsOne 0 709 707) (One 1 708 710) (IsOne 2 711 707) (Text 30 708 712) => (Byte 10 708 712)
            (Text 31 708 707) => (Text 13 31 708 707)
            (Call 161 46 108 0 true) => (CallCall 163 46 108 0 true 47 1186 0 true) (IsOne 23 717 718)
            (Note 713) (IsOne 29 739 740) => (IsByte 94 739 740) (IsOne 24 720 721) (Note 716)
            (IsOne 28 737 738) => (Tests 6708) (IsOne 25 723 724) (Note 719)
            (IsOne 6 735 736) => (Tests 6837) (IsOne 26 726 727) (Note 722)
            (IsOne 27 733 734) => (Tests 6966) (IsOne 27 729 730) => (IsByte 80 729 730) (Note 725)
            (IsOne 27 731 732) => (Tests 7095) (Call 147 39 108 728 true) (Note 728)
            (Call 145 38 108 725 true) (Note 725) (Call 149 40 108 722 true) (Note 722)
            (Call 151 41 108 719 true) (Note 719)
            (Call 157 44 108 716 true) => (CallCall 1167 44 108 716 true 54 1166 0 true) (Note 716)
            (Call 159 45 108 713 true) (Note 713)
            (Call 161 46 110 0 true) => (CallCall 163 46 110 0 true 47 1186 0 true) (IsOne 23 745 746)
            (Note 741) (IsOne 29 767 768) => (IsByte 94 767 768) (IsOne 24 748 749) (Note 744)
            (IsOne 28 765 766) => (Tests 7224) (IsOne 25 751 752) (Note 747)
            (IsOne 6 763 764) => (Tests 7353) (IsOne 26 754 755) (Note 750)
            (IsOne 27 761 762) => (Tests 7482) (IsOne 27 757 758) => (IsByte 80 757 758) (Note 753)
            (IsOne 27 759 760) => (Tests 7611) (Call 147 39 110 756 true) (Note 756)
            (Call 145 38 110 753 true) (Note 753) (Call 149 40 110 750 true) (Note 750)
            (Call 151 41 110 747 true) (Note 747)
            (Call 157 44 110 744 true) => (CallCall 1167 44 110 744 true 54 1166 0 true) (Note 744)
            (Call 159 45 110 741 true) (Note 741) (Call 119 25 112 0 true) (Call 117 24 112 769 true)
            (Note 769) (Call 123 27 114 0 true) (Call 121 26 114 772 true) (Note 772)
            (Call 137 34 116 0 true) => (CallCall 77 34 116 0 true 4 929 0 true) (IsOne 32 779 780)
            (Note 775) (IsOne 39 801 802) => (IsByte 123 801 802) (IsOne 33 782 783) (Note 778)
            (IsOne 39 799 800) => (Tests 7740) (IsOne 34 785 786) (Note 781)
            (IsOne 39 797 798) => (Tests 7869) (IsOne 35 788 789) (Note 784)
            (IsOne 38 795 796) => (Tests 7998) (IsOne 36 791 792) => (IsByte 63 791 792) (Note 787)
            (IsOne 37 793 794) => (Tests 8127) (Call 125 28 116 790 true) (Note 790)
            (Call 127 29 116 787 true) (Note 787) (Call 129 30 116 784 true) (Note 784)
            (Call 131 31 116 781 true) => (CallCall 77 31 116 781 true 4 805 0 true) (Note 781)
            (Call 133 32 116 778 true) => (CallCall 77 32 116 778 true 4 837 0 true) (Note 778)
            (Call 135 33 116 775 true) => (CallCall 77 33 116 775 true 4 882 0 true) (Note 775)
            (IsOne 0 821 820) (Call 79 5 132 0 true) (IsOne 0 808 807) (Call 139 35 803 0 true)
            (IsOne 3 812 806) (One 1 805 809) (IsOne 2 810 807) (Text 30 805 811) => (Byte 10 805 811)
            (Text 31 805 807) => (Text 13 31 805 807) (Try 813 806) (Sub 191 815 0) (Commit 807)
            (IsOne 0 816 814) (One 1 815 817) (IsOne 2 818 814) (Text 30 815 819) => (Byte 10 815 819)
            (Text 31 815 814) => (Text 13 31 815 814) (IsOne 3 825 804) (One 1 803 822)
            (IsOne 2 823 820) (Text 30 803 824) => (Byte 10 803 824)
            (Text 31 803 820) => (Text 13 31 803 820) (Try 826 804) (Sub 191 828 0) (Commit 820)
            (IsOne 0 829 827) (One 1 828 830) (IsOne 2 831 827) (Text 30 828 832) => (Byte 10 828 832)
            (Text 31 828 827) => (Text 13 31 828 827) (IsOne 0 866 865) (Call 79 5 134 0 true)
            (IsOne 0 853 852) (Call 143 37 833 0 true) (IsOne 0 840 839) (Call 139 35 835 0 true)
            (IsOne 3 844 838) (One 1 837 841) (IsOne 2 842 839) (Text 30 837 843) => (Byte 10 837 843)
            (Text 31 837 839) => (Text 13 31 837 839) (Try 845 838) (Sub 191 847 0) (Commit 839)
            (IsOne 0 848 846) (One 1 847 849) (IsOne 2 850 846) (Text 30 847 851) => (Byte 10 847 851)
            (Text 31 847 846) => (Text 13 31 847 846) (IsOne 3 857 836) (One 1 835 854)
            (IsOne 2 855 852) (Text 30 835 856) => (Byte 10 835 856)
            (Text 31 835 852) => (Text 13 31 835 852) (Try 858 836) (Sub 191 860 0) (Commit 852)
            (IsOne 0 861 859) (One 1 860 862) (IsOne 2 863 859) (Text 30 860 864) => (Byte 10 860 864)
            (Text 31 860 859) => (Text 13 31 860 859) (IsOne 3 870 834) (One 1 833 867)
            (IsOne 2 868 865) (Text 30 833 869) => (Byte 10 833 869)
            (Text 31 833 865) => (Text 13 31 833 865) (Try 871 834) (Sub 191 873 0) (Commit 865)
            (IsOne 0 874 872) (One 1 873 875) (IsOne 2 876 872) (Text 30 873 877) => (Byte 10 873 877)
            (Text 31 873 872) => (Text 13 31 873 872) (IsOne 0 911 910) (Call 79 5 136 0 true)
            (IsOne 0 898 897) (Call 139 35 878 0 true) (IsOne 0 885 884) (Call 143 37 880 0 true)
            (IsOne 3 889 883) (One 1 882 886) (IsOne 2 887 884) (Text 30 882 888) => (Byte 10 882 888)
            (Text 31 882 884) => (Text 13 31 882 884) (Try 890 883) (Sub 191 892 0) (Commit 884)
            (IsOne 0 893 891) (One 1 892 894) (IsOne 2 895 891) (Text 30 892 896) => (Byte 10 892 896)
            (Text 31 892 891) => (Text 13 31 892 891) (IsOne 3 902 881) (One 1 880 899)
            (IsOne 2 900 897) (Text 30 880 901) => (Byte 10 880 901)
            (Text 31 880 897) => (Text 13 31 880 897) (Try 903 881) (Sub 191 905 0) (Commit 897)
            (IsOne 0 906 904) (One 1 905 907) (IsOne 2 908 904) (Text 30 905 909) => (Byte 10 905 909)
            (Text 31 905 904) => (Text 13 31 905 904) (IsOne 3 915 879) (One 1 878 912)
            (IsOne 2 913 910) (Text 30 878 914) => (Byte 10 878 914)
            (Text 31 878 910) => (Text 13 31 878 910) (Try 916 879) (Sub 191 918 0) (Commit 910)
            (IsOne 0 919 917) (One 1 918 920) (IsOne 2 921 917) (Text 30 918 922) => (Byte 10 918 922)
            (Text 31 918 917) => (Text 13 31 918 917) (IsOne 0 971 970) (Call 79 5 138 0 true)
            (IsOne 0 958 957) (Call 139 35 923 0 true) (IsOne 0 945 944) (Call 143 37 925 0 true)
            (IsOne 0 932 931) (Call 139 35 927 0 true) (IsOne 3 936 930) (One 1 929 933)
            (IsOne 2 934 931) (Text 30 929 935) => (Byte 10 929 935)
            (Text 31 929 931) => (Text 13 31 929 931) (Try 937 930) (Sub 191 939 0) (Commit 931)
            (IsOne 0 940 938) (One 1 939 941) (IsOne 2 942 938) (Text 30 939 943) => (Byte 10 939 943)
            (Text 31 939 938) => (Text 13 31 939 938) (IsOne 3 949 928) (One 1 927 946)
            (IsOne 2 947 944) (Text 30 927 948) => (Byte 10 927 948)
            (Text 31 927 944) => (Text 13 31 927 944) (Try 950 928) (Sub 191 952 0) (Commit 944)
            (IsOne 0 953 951) (One 1 952 954) (IsOne 2 955 951) (Text 30 952 956) => (Byte 10 952 956)
            (Text 31 952 951) => (Text 13 31 952 951) (IsOne 3 962 926) (One 1 925 959)
            (IsOne 2 960 957) (Text 30 925 961) => (Byte 10 925 961)
            (Text 31 925 957) => (Text 13 31 925 957) (Try 963 926) (Sub 191 965 0) (Commit 957)
            (IsOne 0 966 964) (One 1 965 967) (IsOne 2 968 964) (Text 30 965 969) => (Byte 10 965 969)
            (Text 31 965 964) => (Text 13 31 965 964) (IsOne 3 975 924) (One 1 923 972)
            (IsOne 2 973 970) (Text 30 923 974) => (Byte 10 923 974)
            (Text 31 923 970) => (Text 13 31 923 970) (Try 976 924) (Sub 191 978 0) (Commit 970)
            (IsOne 0 979 977) (One 1 978 980) (IsOne 2 981 977) (Text 30 978 982) => (Byte 10 978 982)
            (Text 31 978 977) => (Text 13 31 978 977) (All 40 140) => (AllReturn 40 140)
            (Text 18 990 0) => (ByteAll 45 41 989 0) (Sub 986 142 984)
            (One 40 1407 0) => (OneAll 40 40 987 0) (Back) (IsOne 40 991 142) (One 42 988 0)
            (All 41 989) (Sub 986 142 142) (IsOne 0 1025 1024) (Call 83 7 146 0 true)
            (IsOne 0 1012 1011) (Call 103 17 992 0 true) (IsOne 0 999 998) (Call 81 6 994 0 true)
            (IsOne 3 1003 997) (One 1 996 1000) (IsOne 2 1001 998)
            (Text 30 996 1002) => (Byte 10 996 1002) (Text 31 996 998) => (Text 13 31 996 998)
            (Try 1004 997) (Sub 191 1006 0) (Commit 998) (IsOne 0 1007 1005) (One 1 1006 1008)
            (IsOne 2 1009 1005) (Text 30 1006 1010) => (Byte 10 1006 1010)
            (Text 31 1006 1005) => (Text 13 31 1006 1005) (IsOne 3 1016 995) (One 1 994 1013)
            (IsOne 2 1014 1011) (Text 30 994 1015) => (Byte 10 994 1015)
            (Text 31 994 1011) => (Text 13 31 994 1011) (Try 1017 995) (Sub 191 1019 0) (Commit 1011)
            (IsOne 0 1020 1018) (One 1 1019 1021) (IsOne 2 1022 1018)
            (Text 30 1019 1023) => (Byte 10 1019 1023) (Text 31 1019 1018) => (Text 13 31 1019 1018)
            (IsOne 3 1029 993) (One 1 992 1026) (IsOne 2 1027 1024)
            (Text 30 992 1028) => (Byte 10 992 1028) (Text 31 992 1024) => (Text 13 31 992 1024)
            (Try 1030 993) (Sub 191 1032 0) (Commit 1024) (IsOne 0 1033 1031) (One 1 1032 1034)
            (IsOne 2 1035 1031) (Text 30 1032 1036) => (Byte 10 1032 1036)
            (Text 31 1032 1031) => (Text 13 31 1032 1031) (IsOne 0 1070 1069) (Call 83 7 148 0 true)
            (IsOne 0 1057 1056)
            (Call 157 44 1037 0 true) => (CallCall 1167 44 1037 0 true 54 1166 0 true)
            (IsOne 0 1044 1043) (Call 81 6 1039 0 true) (IsOne 3 1048 1042) (One 1 1041 1045)
            (IsOne 2 1046 1043) (Text 30 1041 1047) => (Byte 10 1041 1047)
            (Text 31 1041 1043) => (Text 13 31 1041 1043) (Try 1049 1042) (Sub 191 1051 0) (Commit 1043)
            (IsOne 0 1052 1050) (One 1 1051 1053) (IsOne 2 1054 1050)
            (Text 30 1051 1055) => (Byte 10 1051 1055) (Text 31 1051 1050) => (Text 13 31 1051 1050)
            (IsOne 3 1061 1040) (One 1 1039 1058) (IsOne 2 1059 1056)
            (Text 30 1039 1060) => (Byte 10 1039 1060) (Text 31 1039 1056) => (Text 13 31 1039 1056)
            (Try 1062 1040) (Sub 191 1064 0) (Commit 1056) (IsOne 0 1065 1063) (One 1 1064 1066)
            (IsOne 2 1067 1063) (Text 30 1064 1068) => (Byte 10 1064 1068)
            (Text 31 1064 1063) => (Text 13 31 1064 1063) (IsOne 3 1074 1038) (One 1 1037 1071)
            (IsOne 2 1072 1069) (Text 30 1037 1073) => (Byte 10 1037 1073)
            (Text 31 1037 1069) => (Text 13 31 1037 1069) (Try 1075 1038) (Sub 191 1077 0) (Commit 1069)
            (IsOne 0 1078 1076) (One 1 1077 1079) (IsOne 2 1080 1076)
            (Text 30 1077 1081) => (Byte 10 1077 1081) (Text 31 1077 1076) => (Text 13 31 1077 1076)
            (IsOne 0 1149 1148) (Call 87 9 150 0 true) (IsOne 0 1134 1133) => (Tests 8256)
            (IsOne 43 1146 1147) => (Tests 8385) (IsOne 0 1121 1120) (Call 181 56 1084 0 true)
            (IsOne 0 1106 1105) => (Tests 8514) (IsOne 43 1118 1119) => (Tests 8643) (IsOne 0 1093 1092)
            (Call 85 8 1088 0 true) (IsOne 3 1097 1091) (One 1 1090 1094) (IsOne 2 1095 1092)
            (Text 30 1090 1096) => (Byte 10 1090 1096) (Text 31 1090 1092) => (Text 13 31 1090 1092)
            (Try 1098 1091) (Sub 191 1100 0) (Commit 1092) (IsOne 0 1101 1099) (One 1 1100 1102)
            (IsOne 2 1103 1099) (Text 30 1100 1104) => (Byte 10 1100 1104)
            (Text 31 1100 1099) => (Text 13 31 1100 1099) (IsOne 3 1110 1089) => (Tests 8772)
            (One 1 1088 1107) (IsOne 2 1108 1105) => (Tests 8901)
            (Text 30 1088 1109) => (Byte 10 1088 1109) (Text 31 1088 1105) => (Text 13 31 1088 1105)
            (Try 1111 1089) (Sub 191 1113 0) (Commit 1105) (IsOne 0 1114 1112) (One 1 1113 1115)
            (IsOne 2 1116 1112) (Text 30 1113 1117) => (Byte 10 1113 1117)
            (Text 31 1113 1112) => (Text 13 31 1113 1112) (Call 141 36 1086 1086 true) (Note 1086)
            (IsOne 3 1125 1087) (One 1 1086 1122) (IsOne 2 1123 1120)
            (Text 30 1086 1124) => (Byte 10 1086 1124) (Text 31 1086 1120) => (Text 13 31 1086 1120)
            (Try 1126 1087) (Sub 191 1128 0) (Commit 1120) (IsOne 0 1129 1127) (One 1 1128 1130)
            (IsOne 2 1131 1127) (Text 30 1128 1132) => (Byte 10 1128 1132)
            (Text 31 1128 1127) => (Text 13 31 1128 1127) (IsOne 3 1138 1085) => (Tests 9030)
            (One 1 1084 1135) (IsOne 2 1136 1133) => (Tests 9159)
            (Text 30 1084 1137) => (Byte 10 1084 1137) (Text 31 1084 1133) => (Text 13 31 1084 1133)
            (Try 1139 1085) (Sub 191 1141 0) (Commit 1133) (IsOne 0 1142 1140) (One 1 1141 1143)
            (IsOne 2 1144 1140) (Text 30 1141 1145) => (Byte 10 1141 1145)
            (Text 31 1141 1140) => (Text 13 31 1141 1140) (Call 141 36 1082 1082 true) (Note 1082)
            (IsOne 3 1153 1083) (One 1 1082 1150) (IsOne 2 1151 1148)
            (Text 30 1082 1152) => (Byte 10 1082 1152) (Text 31 1082 1148) => (Text 13 31 1082 1148)
            (Try 1154 1083) (Sub 191 1156 0) (Commit 1148) (IsOne 0 1157 1155) (One 1 1156 1158)
            (IsOne 2 1159 1155) (Text 30 1156 1160) => (Byte 10 1156 1160)
            (Text 31 1156 1155) => (Text 13 31 1156 1155) (All 14 152) => (AllReturn 14 152)
            (One 6 1161 0) => (OneAll 6 14 152 0) (Text 20 1164 0) => (Text 80 20 1164 0) (Ahead 0)
            (Call 1167 54 158 0 true) (Call 165 48 1165 0 true)
            (Text 27 1168 0) => (ByteReturn 34 1168 0) (Return) (IsOne 0 1172 1171)
            (Call 157 44 160 0 true) => (CallCall 1167 44 160 0 true 54 1166 0 true) (IsOne 3 1176 1170)
            (One 1 1169 1173) (IsOne 2 1174 1171) (Text 30 1169 1175) => (Byte 10 1169 1175)
            (Text 31 1169 1171) => (Text 13 31 1169 1171) (Try 1177 1170) (Sub 191 1179 0) (Commit 1171)
            (IsOne 0 1180 1178) (One 1 1179 1181) (IsOne 2 1182 1178)
            (Text 30 1179 1183) => (Byte 10 1179 1183) (Text 31 1179 1178) => (Text 13 31 1179 1178)
            (IsOne 0 1202 1201) (Call 163 47 162 0 true) => (CallCall 1216 47 162 0 true 55 1215 0 true)
            (IsOne 0 1189 1188) (Call 181 56 1184 0 true) (IsOne 3 1193 1187) (One 1 1186 1190)
            (IsOne 2 1191 1188) (Text 30 1186 1192) => (Byte 10 1186 1192)
            (Text 31 1186 1188) => (Text 13 31 1186 1188) (Try 1194 1187) (Sub 191 1196 0) (Commit 1188)
            (IsOne 0 1197 1195) (One 1 1196 1198) (IsOne 2 1199 1195)
            (Text 30 1196 1200) => (Byte 10 1196 1200) (Text 31 1196 1195) => (Text 13 31 1196 1195)
            (IsOne 3 1206 1185) (One 1 1184 1203) (IsOne 2 1204 1201)
            (Text 30 1184 1205) => (Byte 10 1184 1205) (Text 31 1184 1201) => (Text 13 31 1184 1201)
            (Try 1207 1185) (Sub 191 1209 0) (Commit 1201) (IsOne 0 1210 1208) (One 1 1209 1211)
            (IsOne 2 1212 1208) (Text 30 1209 1213) => (Byte 10 1209 1213)
            (Text 31 1209 1208) => (Text 13 31 1209 1208) (Call 1216 55 164 0 true)
            (Call 167 49 1214 0 true) (Text 28 1217 0) => (ByteReturn 39 1217 0) (Return)
            (IsOne 47 1219 166) => (IsByte 92 1219 166) (Try 1220 166) (Sub 1223 1222 0) (Commit 166)
            (Sub 1225 1221 0) (Text 24 1408 0) => (Byte 92 1408 0) (Back) (All 46 1413) (Back)
            (One 48 168 0) (Sub 1223 168 1227) (IsOne 49 1231 1230) (Sub 1236 170 0) (One 50 170 1232)
            (IsOne 51 1233 1230) => (IsByte 120 1233 1230) (Sub 1234 170 1230)
            (Text 25 1419 0) => (Byte 120 1419 0) (Back) (Text 26 1422 0) => (Byte 117 1422 0) (Back)
            (One 52 172 0) (One 52 1238 0) (One 53 174 0) => (ByteReturn 125 174 0) (One 52 1243 0)
            (One 39 1241 0) => (Byte 123 1241 0) (One 52 1244 0) (One 52 1245 1245) (One 52 1246 1246)
            (One 52 1247 1247) (One 52 1240 1240) (Text 31 184 0) => (Text 13 31 184 0)
            (Text 30 186 1250) => (Byte 10 186 1250) (Text 31 186 0) => (Text 13 31 186 0)
            (IsOne 0 1271 1270) (Try 1285 188) (IsOne 0 1256 1255) (Not 1268 1251) (IsOne 3 1260 1254)
            (One 1 1253 1257) (IsOne 2 1258 1255) (Text 30 1253 1259) => (Byte 10 1253 1259)
            (Text 31 1253 1255) => (Text 13 31 1253 1255) (Try 1261 1254) (Sub 191 1263 0) (Commit 1255)
            (IsOne 0 1264 1262) (One 1 1263 1265) (IsOne 2 1266 1262)
            (Text 30 1263 1267) => (Byte 10 1263 1267) (Text 31 1263 1262) => (Text 13 31 1263 1262)
            (One 54 1269 0) (Ahead 0) (IsOne 3 1275 1252) (One 1 1251 1272) (IsOne 2 1273 1270)
            (Text 30 1251 1274) => (Byte 10 1251 1274) (Text 31 1251 1270) => (Text 13 31 1251 1270)
            (Try 1276 1252) (Sub 191 1278 0) (Commit 1270) (IsOne 0 1279 1277) (One 1 1278 1280)
            (IsOne 2 1281 1277) (Text 30 1278 1282) => (Byte 10 1278 1282)
            (Text 31 1278 1277) => (Text 13 31 1278 1277) (Try 1284 188) (IsOne 0 1288 1287)
            (Not 1302 1300) (Commit 1283) => (Renew 1284 188) (IsOne 3 1292 1285) (One 1 1284 1289)
            (IsOne 2 1290 1287) (Text 30 1284 1291) => (Byte 10 1284 1291)
            (Text 31 1284 1287) => (Text 13 31 1284 1287) (Try 1293 1285) (Sub 191 1295 0) (Commit 1287)
            (IsOne 0 1296 1294) (One 1 1295 1297) (IsOne 2 1298 1294)
            (Text 30 1295 1299) => (Byte 10 1295 1299) (Text 31 1295 1294) => (Text 13 31 1295 1294)
            (IsOne 0 1306 1305) (One 55 1286 0) (Text 30 1303 1304) => (Byte 10 1303 1304) (Ahead 0)
            (Text 31 1303 0) => (Text 13 31 1303 0) (IsOne 3 1310 1301) (One 1 1300 1307)
            (IsOne 2 1308 1305) (Text 30 1300 1309) => (Byte 10 1300 1309)
            (Text 31 1300 1305) => (Text 13 31 1300 1305) (Try 1311 1301) (Sub 191 1313 0) (Commit 1305)
            (IsOne 0 1314 1312) (One 1 1313 1315) (IsOne 2 1316 1312)
            (Text 30 1313 1317) => (Byte 10 1313 1317) (Text 31 1313 1312) => (Text 13 31 1313 1312)
            (IsOne 0 1372 1371) (Text 34 190 0) => (Text 42 34 190 0) (IsOne 0 1323 1322)
            (Try 1337 1318) (IsOne 3 1327 1321) (One 1 1320 1324) (IsOne 2 1325 1322)
            (Text 30 1320 1326) => (Byte 10 1320 1326) (Text 31 1320 1322) => (Text 13 31 1320 1322)
            (Try 1328 1321) (Sub 191 1330 0) (Commit 1322) (IsOne 0 1331 1329) (One 1 1330 1332)
            (IsOne 2 1333 1329) (Text 30 1330 1334) => (Byte 10 1330 1334)
            (Text 31 1330 1329) => (Text 13 31 1330 1329) (Try 1336 1318) (IsOne 0 1340 1339)
            (IsOne 4 1353 1352) => (IsByte 47 1353 1352) (Commit 1335) => (Renew 1336 1318)
            (IsOne 3 1344 1337) (One 1 1336 1341) (IsOne 2 1342 1339)
            (Text 30 1336 1343) => (Byte 10 1336 1343) (Text 31 1336 1339) => (Text 13 31 1336 1339)
            (Try 1345 1337) (Sub 191 1347 0) (Commit 1339) (IsOne 0 1348 1346) (One 1 1347 1349)
            (IsOne 2 1350 1346) (Text 30 1347 1351) => (Byte 10 1347 1351)
            (Text 31 1347 1346) => (Text 13 31 1347 1346) (Not 1356 1354) (Sub 189 1338 1352)
            (IsOne 0 1359 1358) (One 55 1338 0) (Text 34 1357 0) => (Text 42 34 1357 0) (Ahead 0)
            (IsOne 3 1363 1355) (One 1 1354 1360) (IsOne 2 1361 1358)
            (Text 30 1354 1362) => (Byte 10 1354 1362) (Text 31 1354 1358) => (Text 13 31 1354 1358)
            (Try 1364 1355) (Sub 191 1366 0) (Commit 1358) (IsOne 0 1367 1365) (One 1 1366 1368)
            (IsOne 2 1369 1365) (Text 30 1366 1370) => (Byte 10 1366 1370)
            (Text 31 1366 1365) => (Text 13 31 1366 1365) (IsOne 3 1376 1319) (One 1 1318 1373)
            (IsOne 2 1374 1371) (Text 30 1318 1375) => (Byte 10 1318 1375)
            (Text 31 1318 1371) => (Text 13 31 1318 1371) (Try 1377 1319) (Sub 191 1379 0) (Commit 1371)
            (IsOne 0 1380 1378) (One 1 1379 1381) (IsOne 2 1382 1378)
            (Text 30 1379 1383) => (Byte 10 1379 1383) (Text 31 1379 1378) => (Text 13 31 1379 1378)
            (Text 32 1386 0) => (Text 47 32 1386 0) (All 56 1389) (Not 1387 1385) (One 54 1388 0)
            (Ahead 0) (Try 1390 192) (Not 1393 1392) (Commit 1385) (One 55 1391 0)
            (Text 30 1394 1395) => (Byte 10 1394 1395) (Ahead 0) (Text 31 1394 0) => (Text 13 31 1394 0)
            (Call 199 65 196 0 true) (One 1 1396 1396) (Call 199 65 198 0 true) (One 1 1398 1398)
            (Try 1401 200) (Not 1404 1403) (Commit 199) (One 55 1402 0)
            (Text 30 1405 1406) => (Byte 10 1405 1406) (Ahead 0) (Text 31 1405 0) => (Text 13 31 1405 0)
            (All 40 987) (IsOne 49 1410 1409) (Sub 1236 1224 0) (One 50 1224 1411)
            (IsOne 51 1412 1409) => (IsByte 120 1412 1409) (Sub 1234 1224 1409)
            (IsOne 47 1414 1226) => (IsByte 92 1414 1226) (Try 1415 1226) (Sub 1223 1417 0)
            (Commit 1226) (Sub 1225 1416 0) (One 52 1235 0) (One 52 1418 0)
            (One 53 1237 0) => (Byte 125 1237 0) (One 52 1423 0) (One 39 1421 0) => (Byte 123 1421 0)
            (One 52 1424 0) (One 52 1425 1425) (One 52 1426 1426) (One 52 1427 1427) (One 52 1420 1420)
        }
    };
}

/// The operations of the exact code, of five words each.
pub static EXACT_BYTES: [[u8; 20]; 498] = all_bytes! {
    (Fail) (Halt) (Lose) (End 69 70) (Sub 71 1 2) (Call 73 2 1 2 true) (Call 75 3 1 2 true)
    (Call 77 4 1 2 true) (Call 79 5 1 2 true) (Call 81 6 1 2 true) (Call 83 7 1 2 true)
    (Call 85 8 1 2 true) (Call 87 9 1 2 true) (Sub 89 1 2) (Call 91 11 1 2 true) (Call 93 12 1 2 true)
    (Call 95 13 1 2 true) (Call 97 14 1 2 true) (Call 99 15 1 2 true) (Sub 101 1 2)
    (Call 103 17 1 2 true) (Call 105 18 1 2 true) (Sub 107 1 2) (Sub 109 1 2) (Sub 111 1 2)
    (Sub 113 1 2) (Sub 115 1 2) (Call 117 24 1 2 true) (Call 119 25 1 2 true) (Call 121 26 1 2 true)
    (Call 123 27 1 2 true) (Call 125 28 1 2 true) (Call 127 29 1 2 true) (Call 129 30 1 2 true)
    (Call 131 31 1 2 true) (Call 133 32 1 2 true) (Call 135 33 1 2 true) (Call 137 34 1 2 true)
    (Call 139 35 1 2 true) (Call 141 36 1 2 true) (Call 143 37 1 2 true) (Call 145 38 1 2 true)
    (Call 147 39 1 2 true) (Call 149 40 1 2 true) (Call 151 41 1 2 true) (Sub 153 1 2) (Sub 155 1 2)
    (Call 157 44 1 2 true) (Call 159 45 1 2 true) (Call 161 46 1 2 true) (Call 163 47 1 2 true)
    (Call 165 48 1 2 true) (Call 167 49 1 2 true) (Call 169 50 1 2 true) (Call 171 51 1 2 true)
    (Call 173 52 1 2 true) (Call 175 53 1 2 true) (Call 177 54 1 2 true) (Call 179 55 1 2 true)
    (Call 181 56 1 2 true) (Sub 183 1 2) (Sub 185 1 2) (Sub 187 1 2) (Sub 189 1 2) (Sub 191 1 2)
    (Sub 193 1 2) (Call 195 63 1 2 true) (Call 197 64 1 2 true) (Call 199 65 1 2 true) (Leaf 0 1)
    (Miss 0 2) (Start 205 0) (Back) (Try 220 219) (Return) (Text 0 76 0) (Return) (Text 1 78 0) (Return)
    (Text 2 80 0) (Return) (Text 3 82 0) (Return) (Text 4 84 0) (Return) (Text 5 86 0) (Return)
    (Text 6 88 0) (Return) (Call 91 11 90 237 true) (Back) (Text 7 92 0) (Return) (Text 8 94 0) (Return)
    (Text 9 96 0) (Return) (Text 10 98 0) (Return) (Text 11 239 0) (Return) (Call 99 15 240 0 true)
    (Back) (Call 123 27 244 244 true) (Return) (Try 259 257) (Return) (Try 292 291) (Back)
    (Call 147 39 110 309 true) (Back) (Call 117 24 112 310 true) (Back) (Call 121 26 114 311 true)
    (Back) (Call 125 28 116 317 true) (Back) (Text 12 118 0) (Return) (Text 10 120 0) (Return)
    (Text 13 122 0) (Return) (Text 14 124 0) (Return) (Text 15 126 0) (Return) (Text 16 128 0) (Return)
    (Text 17 130 0) (Return) (Call 77 4 320 0 true) (Return) (Call 77 4 326 0 true) (Return)
    (Call 77 4 332 0 true) (Return) (Call 77 4 340 0 true) (Return) (One 2 342 0) (Return)
    (Sub 344 142 343) (Return) (Text 19 144 0) (Return) (Text 20 353 0) (Return) (Text 21 359 0)
    (Return) (Text 22 369 0) (Return) (Not 373 372) (Return) (One 5 154 0) (Back) (One 6 156 0) (Back)
    (Call 377 54 376 0 true) (Return) (Text 23 379 0) (Return) (Call 163 47 383 0 true) (Return)
    (Call 387 55 386 0 true) (Return) (All 7 389) (Return) (Sub 393 168 397) (Return) (Text 24 398 0)
    (Return) (Text 25 406 0) (Return) (Text 26 409 0) (Return) (One 10 176 0) (Return) (Text 27 178 0)
    (Return) (Text 28 180 0) (Return) (Text 29 182 0) (Return) (Text 30 184 415) (Back) (One 13 186 416)
    (Back) (Text 32 420 0) (Back) (Text 33 435 0) (Back) (Nested 33 34 192 446) (Back) (One 13 194 0)
    (Back) (Text 35 459 0) (Return) (Text 36 461 0) (Return) (All 16 462) (Return) (Sub 207 202 0)
    (End 217 218) (Sub 207 204 0) (Try 215 201) (Sub 207 206 0) (Try 211 203) (IsOne 17 470 469) (Back)
    (Try 210 203) (Sub 207 211 0) (Call 195 63 212 0 true) (Commit 209) (Try 214 201) (Sub 207 215 0)
    (Call 73 2 216 0 true) (Commit 213) (Leaf 0 72) (Miss 0 0) (Call 197 64 74 0 true)
    (Call 151 41 230 0 true) (Commit 74) (Sub 207 223 0) (Call 79 5 221 0 true) (Sub 207 225 0)
    (Call 103 17 222 0 true) (Sub 207 227 0) (Call 77 4 224 0 true) (Sub 207 229 0)
    (Call 91 11 226 234 true) (Sub 207 231 0) (Call 75 3 228 0 true) (Call 97 14 226 226 true)
    (Call 95 13 226 232 true) (Call 93 12 226 233 true) (Call 97 14 90 0 true) (Call 95 13 90 235 true)
    (Call 93 12 90 236 true) (All 1 100) (One 0 238 0) (Sub 207 241 0) (Call 75 3 102 0 true)
    (Sub 207 243 0) (Try 248 104) (Sub 207 245 0) (Call 105 18 242 0 true) (Try 247 104) (Sub 207 248 0)
    (Call 121 26 250 252 true) (Commit 246) (Sub 207 251 0) (Call 105 18 249 0 true)
    (Call 123 27 250 0 true) (Sub 207 254 0) (Try 283 106) (Sub 207 256 0) (Try 269 268) (Sub 207 258 0)
    (Try 265 255) (Call 99 15 261 0 true) (Commit 257) (Sub 207 262 0) (Call 75 3 260 0 true)
    (Try 264 255) (Sub 207 265 0) (Call 117 24 266 267 true) (Commit 263) (Call 119 25 266 0 true)
    (Call 147 39 253 280 true) (Call 81 6 273 0 true) (Commit 253) (Sub 207 272 0)
    (Call 83 7 270 0 true) (Sub 207 274 0) (Call 103 17 271 0 true) (Call 161 46 253 0 true)
    (Call 159 45 253 275 true) (Call 157 44 253 276 true) (Call 151 41 253 277 true)
    (Call 149 40 253 278 true) (Call 145 38 253 279 true) (Try 282 106) (Sub 207 283 0)
    (Call 125 28 284 290 true) (Commit 281) (Call 137 34 284 0 true) (Call 135 33 284 285 true)
    (Call 133 32 284 286 true) (Call 131 31 284 287 true) (Call 129 30 284 288 true)
    (Call 127 29 284 289 true) (Call 147 39 108 303 true) (Call 81 6 296 0 true) (Commit 108)
    (Sub 207 295 0) (Call 83 7 293 0 true) (Sub 207 297 0) (Call 103 17 294 0 true)
    (Call 161 46 108 0 true) (Call 159 45 108 298 true) (Call 157 44 108 299 true)
    (Call 151 41 108 300 true) (Call 149 40 108 301 true) (Call 145 38 108 302 true)
    (Call 161 46 110 0 true) (Call 159 45 110 304 true) (Call 157 44 110 305 true)
    (Call 151 41 110 306 true) (Call 149 40 110 307 true) (Call 145 38 110 308 true)
    (Call 119 25 112 0 true) (Call 123 27 114 0 true) (Call 137 34 116 0 true)
    (Call 135 33 116 312 true) (Call 133 32 116 313 true) (Call 131 31 116 314 true)
    (Call 129 30 116 315 true) (Call 127 29 116 316 true) (Sub 207 319 0) (Call 79 5 132 0 true)
    (Sub 207 321 0) (Call 139 35 318 0 true) (Sub 207 323 0) (Call 79 5 134 0 true) (Sub 207 325 0)
    (Call 143 37 322 0 true) (Sub 207 327 0) (Call 139 35 324 0 true) (Sub 207 329 0)
    (Call 79 5 136 0 true) (Sub 207 331 0) (Call 139 35 328 0 true) (Sub 207 333 0)
    (Call 143 37 330 0 true) (Sub 207 335 0) (Call 79 5 138 0 true) (Sub 207 337 0)
    (Call 139 35 334 0 true) (Sub 207 339 0) (Call 143 37 336 0 true) (Sub 207 341 0)
    (Call 139 35 338 0 true) (All 2 140) (Text 18 348 0) (One 2 480 0) (Back) (Sub 344 142 142)
    (One 4 346 0) (All 3 347) (Sub 207 350 0) (Call 83 7 146 0 true) (Sub 207 352 0)
    (Call 103 17 349 0 true) (Sub 207 354 0) (Call 81 6 351 0 true) (Sub 207 356 0)
    (Call 83 7 148 0 true) (Sub 207 358 0) (Call 157 44 355 0 true) (Sub 207 360 0)
    (Call 81 6 357 0 true) (Sub 207 362 0) (Call 87 9 150 0 true) (Sub 207 364 0)
    (Call 141 36 361 361 true) (Sub 207 366 0) (Call 181 56 363 0 true) (Sub 207 368 0)
    (Call 141 36 365 365 true) (Sub 207 370 0) (Call 85 8 367 0 true) (All 1 152) (One 0 371 0)
    (Text 20 374 0) (Ahead 0) (Call 377 54 158 0 true) (Call 165 48 375 0 true) (Text 27 378 0) (Return)
    (Sub 207 380 0) (Call 157 44 160 0 true) (Sub 207 382 0) (Call 163 47 162 0 true) (Sub 207 384 0)
    (Call 181 56 381 0 true) (Call 387 55 164 0 true) (Call 167 49 385 0 true) (Text 28 388 0) (Return)
    (Try 390 166) (Sub 393 392 0) (Commit 166) (Sub 395 391 0) (Text 24 481 0) (Back) (All 7 484) (Back)
    (One 8 168 0) (One 9 170 400) (Sub 403 170 0) (Sub 401 170 399) (Text 25 489 0) (Back)
    (Text 26 492 0) (Back) (One 10 172 0) (One 10 405 0) (One 12 174 0) (One 10 410 0) (One 11 408 0)
    (One 10 411 0) (One 10 412 412) (One 10 413 413) (One 10 414 414) (One 10 407 407) (Text 31 184 0)
    (Text 30 186 417) (Text 31 186 0) (Sub 207 419 0) (Try 426 188) (Sub 207 421 0) (Not 422 418)
    (One 14 423 0) (Ahead 0) (Try 425 188) (Sub 207 426 0) (Not 430 428) (Commit 424) (Sub 207 429 0)
    (One 15 427 0) (Text 30 431 432) (Ahead 0) (Text 31 431 0) (Sub 207 434 0) (Text 34 190 0)
    (Sub 207 436 0) (Try 439 433) (Try 438 433) (Sub 207 439 0) (Sub 189 440 441) (Commit 437)
    (Not 444 442) (Sub 207 443 0) (One 15 440 0) (Text 34 445 0) (Ahead 0) (Text 32 448 0) (All 16 451)
    (Not 449 447) (One 14 450 0) (Ahead 0) (Try 452 192) (Not 455 454) (Commit 447) (One 15 453 0)
    (Text 30 456 457) (Ahead 0) (Text 31 456 0) (Call 199 65 196 0 true) (One 13 458 458)
    (Call 199 65 198 0 true) (One 13 460 460) (Try 463 200) (Not 466 465) (Commit 199) (One 15 464 0)
    (Text 30 467 468) (Ahead 0) (Text 31 467 0) (IsOne 18 473 208) (One 13 207 471) (Text 30 207 472)
    (Text 31 207 469) (Try 474 208) (Sub 191 476 0) (Commit 469) (IsOne 17 477 475) (One 13 476 478)
    (Text 30 476 479) (Text 31 476 475) (All 2 345) (One 9 394 483) (Sub 403 394 0) (Sub 401 394 482)
    (Try 485 396) (Sub 393 487 0) (Commit 396) (Sub 395 486 0) (One 10 402 0) (One 10 488 0)
    (One 12 404 0) (One 10 493 0) (One 11 491 0) (One 10 494 0) (One 10 495 495) (One 10 496 496)
    (One 10 497 497) (One 10 490 490)
};

/// The byte sets of the exact code.
pub static EXACT_BYTE_SETS: [u8; 4864] = byte_sets! {
    0 0 0 0 0 0 0 0 254 255 255 135 254 255 255 7; 0 0 0 0 0 0 255 3 254 255 255 135 254 255 255 7;
    0 0 0 0 0 0 255 3 0 0 0 0 0 0 0 0; 0 0 0 0 0 0 1 0 0 0 0 0 0 0 0 0;
    0 0 0 0 0 0 254 3 0 0 0 0 0 0 0 0; 0 0 0 0 0 0 0 0 254 255 255 7 254 255 255 7;
    0 0 0 0 0 0 255 3 254 255 255 7 254 255 255 7;
    255 255 255 255 251 255 255 255 255 255 255 239 255 255 255 255;
    255 255 255 255 127 255 255 255 255 255 255 239 255 255 255 255;
    0 0 0 0 132 0 1 0 0 0 0 16 0 64 20 0; 0 0 0 0 0 0 255 3 126 0 0 0 126 0 0 0;
    0 0 0 0 0 0 0 0 0 0 0 0 0 0 0 8; 0 0 0 0 0 0 0 0 0 0 0 0 0 0 0 32; 0 2 0 0 1 0 0 0 0 0 0 0 0 0 0 0;
    0 0 0 0 2 128 0 0 0 0 0 0 0 0 0 0; 255 255 255 255 255 255 255 255 255 255 255 255 255 255 255 255;
    255 219 255 255 255 255 255 255 255 255 255 255 255 255 255 255; 0 38 0 0 1 0 0 0 0 0 0 0 0 0 0 0;
    0 0 0 0 0 128 0 0 0 0 0 0 0 0 0 0;
};

/// Where the ranges of each begin.
pub static EXACT_SET_PLACES: [[u8; 4]; 20] = words! {
    0 3 7 8 9 10 12 15 18 21 28 31 32 33 35 37 38 41 45 47
};

/// The ranges of each.
pub static EXACT_RANGES: [[u8; 8]; 47] = ranges! {
    (95 95) (97 122) (65 90); (95 95) (97 122) (65 90) (48 57); (48 57); (48 48); (49 57);
    (97 122) (65 90); (97 122) (65 90) (48 57); (0 33) (35 91) (93 1114111);
    (0 38) (40 91) (93 1114111); (34 34) (92 92) (114 114) (110 110) (116 116) (48 48) (39 39);
    (48 57) (97 102) (65 70); (123 123); (125 125); (32 32) (9 9); (47 47) (33 33); (0 1114111);
    (0 9) (11 12) (14 1114111); (32 32) (9 9) (10 10) (13 13); (47 47) (47 47);
};

/// No ranges are searched by halves.
pub static EXACT_ORDERS: [u8; 19] = [0; 19];

/// The operations of the fast code, of five words each.
pub static FAST_BYTES: [[u8; 20]; 1428] = fast_code!(all_bytes);

/// The fused operations of the fast code.
pub static FAST_FUSED: [Fused; 1428] = fast_code!(all_fused);

/// The tables of its tests.
pub static FAST_TABLES: [[u8; 4]; 9288] = tables! {
    767 767 767 767 767 767 789 767 767 767 767 767 767 767 785 767 767 767 780 767 767 767;
    833 841 841 833 833 833 833 833 833 833 833 833 849 833 833 833 833 833 833 833 834 833;
    1181 1017 1017 1041 1229 976 1181 1041 1113 1181 1181 1181 1025 1181 1181 1225 1213 1233 1225 1181
    1181 1181;
    1427 1427 1427 1427 1475 1427 1427 1427 1358 1427 1427 1427 1427 1427 1427 1471 1459 1479 1471 1427
    1427 1427;
    1483 1483 1483 1483 1531 1483 1483 1483 1483 1483 1483 1483 1483 1483 1483 1527 1514 1535 1527 1483
    1483 1483;
    1551 1551 1551 1551 1551 1551 1551 1551 1551 1587 1591 1551 1551 1582 1551 1551 1551 1551 1551 1595
    1551 1551; 405 480 480 405 405 405 405 405 405 405 405 405 488 405 405 504 504 405 504 405 405 405;
    405 545 545 405 405 405 405 405 405 405 405 405 504 405 405 504 504 405 504 405 405 405;
    405 416 416 405 405 405 405 405 405 405 405 405 424 405 405 505 505 405 505 405 405 405;
    405 481 481 405 405 405 405 405 405 405 405 405 440 405 405 505 505 405 505 405 405 405;
    405 481 481 405 405 405 405 405 405 405 405 405 424 405 405 505 505 405 505 405 405 405;
    405 481 420 405 405 405 405 405 405 405 405 405 424 405 405 505 505 405 505 405 405 405;
    405 545 545 405 405 405 405 405 405 405 405 405 488 405 405 504 504 405 504 405 405 405;
    405 545 484 405 405 405 405 405 405 405 405 405 488 405 405 504 504 405 504 405 405 405;
    593 630 630 685 593 593 681 593 593 593 593 593 638 593 677 593 593 593 672 593 593 593;
    593 691 691 685 593 593 681 593 593 593 593 593 699 593 677 593 593 593 672 593 593 593;
    593 691 691 685 593 593 681 593 593 593 593 593 638 593 677 593 593 593 672 593 593 593;
    593 691 634 685 593 593 681 593 593 593 593 593 638 593 677 593 593 593 672 593 593 593;
    593 691 691 684 593 593 593 593 593 593 593 593 699 593 593 593 593 593 593 593 593 593;
    593 691 691 685 593 593 680 593 593 593 593 593 699 593 593 593 593 593 593 593 593 593;
    593 691 691 685 593 593 681 593 593 593 593 593 699 593 676 593 593 593 593 593 593 593;
    767 767 767 767 767 767 789 767 767 767 767 767 767 767 784 767 767 767 767 767 767 767;
    209 866 866 209 209 209 209 209 209 209 209 209 874 209 209 209 209 209 209 209 890 890;
    209 209 870 209 209 209 209 209 209 209 209 209 874 209 209 209 209 209 209 209 890 890;
    933 904 904 933 933 933 933 933 933 933 933 933 912 933 933 933 933 933 933 933 933 934;
    933 933 908 933 933 933 933 933 933 933 933 933 912 933 933 933 933 933 933 933 933 934;
    213 1238 1238 213 213 213 213 213 213 1262 1262 213 1246 1262 213 213 213 213 213 1262 213 213;
    1181 1086 1086 1181 1229 1181 1181 1181 1112 1181 1181 1181 1094 1181 1181 1225 1213 1233 1225 1181
    1181 1181;
    1181 1181 1181 1181 1229 1181 1181 1181 1112 1181 1181 1181 1181 1181 1181 1225 1213 1233 1225 1181
    1181 1181;
    1181 1016 1016 1040 1229 1181 1181 1040 1113 1181 1181 1181 1024 1181 1181 1225 1213 1233 1225 1181
    1181 1181;
    1181 1087 1087 1040 1229 1181 1181 1040 1113 1181 1181 1181 1095 1181 1181 1225 1213 1233 1225 1181
    1181 1181;
    1181 1087 1087 1040 1229 1181 1181 1040 1113 1181 1181 1181 1024 1181 1181 1225 1213 1233 1225 1181
    1181 1181;
    1181 1087 1020 1040 1229 1181 1181 1040 1113 1181 1181 1181 1024 1181 1181 1225 1213 1233 1225 1181
    1181 1181;
    1079 1054 1054 1079 1079 1079 1079 1080 1079 1079 1079 1079 1062 1079 1079 1079 1079 1079 1079 1079
    1079 1079;
    1079 1079 1058 1079 1079 1079 1079 1080 1079 1079 1079 1079 1062 1079 1079 1079 1079 1079 1079 1079
    1079 1079;
    1181 1181 1181 1181 1229 1181 1181 1181 1112 1181 1181 1181 1094 1181 1181 1225 1213 1233 1225 1181
    1181 1181;
    1181 1181 1090 1181 1229 1181 1181 1181 1112 1181 1181 1181 1094 1181 1181 1225 1213 1233 1225 1181
    1181 1181;
    1181 1181 1181 1181 1229 1181 1181 1181 1181 1181 1181 1181 1181 1181 1181 1225 1212 1233 1225 1181
    1181 1181;
    1181 1181 1181 1181 1228 1181 1181 1181 1181 1181 1181 1181 1181 1181 1181 1181 1181 1233 1181 1181
    1181 1181;
    1181 1181 1181 1181 1229 1181 1181 1181 1181 1181 1181 1181 1181 1181 1181 1224 1224 1233 1224 1181
    1181 1181;
    1181 1181 1181 1181 1229 1181 1181 1181 1181 1181 1181 1181 1181 1181 1181 1225 1220 1233 1225 1181
    1181 1181;
    1181 1181 1181 1181 1229 1181 1181 1181 1181 1181 1181 1181 1181 1181 1181 1225 1216 1233 1225 1181
    1181 1181;
    213 213 1242 213 213 213 213 213 213 1262 1262 213 1246 1262 213 213 213 213 213 1262 213 213;
    1301 1276 1276 1301 1301 1301 1301 1301 1301 1337 1341 1301 1284 1332 1301 1301 1301 1301 1301 1345
    1301 1301;
    1301 1301 1301 1301 1301 1301 1301 1301 1301 1337 1341 1301 1301 1332 1301 1301 1301 1301 1301 1345
    1301 1301;
    1301 1301 1301 1301 1301 1301 1301 1301 1301 1337 1341 1301 1284 1332 1301 1301 1301 1301 1301 1345
    1301 1301;
    1301 1301 1280 1301 1301 1301 1301 1301 1301 1337 1341 1301 1284 1332 1301 1301 1301 1301 1301 1345
    1301 1301;
    1301 1301 1301 1301 1301 1301 1301 1301 1301 1301 1301 1301 1301 1301 1301 1301 1301 1301 1301 1348
    1301 1301;
    1301 1301 1301 1301 1301 1301 1301 1301 1301 1301 1301 1301 1301 1301 1301 1301 1301 1301 1301 1344
    1301 1301;
    1301 1301 1301 1301 1301 1301 1301 1301 1301 1301 1340 1301 1301 1301 1301 1301 1301 1301 1301 1345
    1301 1301;
    1301 1301 1301 1301 1301 1301 1301 1301 1301 1336 1341 1301 1301 1301 1301 1301 1301 1301 1301 1345
    1301 1301;
    1427 1427 1427 1427 1475 1427 1427 1427 1427 1427 1427 1427 1427 1427 1427 1471 1458 1479 1471 1427
    1427 1427;
    1427 1427 1427 1427 1474 1427 1427 1427 1427 1427 1427 1427 1427 1427 1427 1427 1427 1479 1427 1427
    1427 1427;
    1427 1427 1427 1427 1475 1427 1427 1427 1427 1427 1427 1427 1427 1427 1427 1470 1470 1479 1470 1427
    1427 1427;
    1427 1427 1427 1427 1475 1427 1427 1427 1427 1427 1427 1427 1427 1427 1427 1471 1466 1479 1471 1427
    1427 1427;
    1427 1427 1427 1427 1475 1427 1427 1427 1427 1427 1427 1427 1427 1427 1427 1471 1462 1479 1471 1427
    1427 1427;
    1483 1483 1483 1483 1530 1483 1483 1483 1483 1483 1483 1483 1483 1483 1483 1483 1483 1535 1483 1483
    1483 1483;
    1483 1483 1483 1483 1531 1483 1483 1483 1483 1483 1483 1483 1483 1483 1483 1526 1526 1535 1526 1483
    1483 1483;
    1483 1483 1483 1483 1531 1483 1483 1483 1483 1483 1483 1483 1483 1483 1483 1527 1522 1535 1527 1483
    1483 1483;
    1483 1483 1483 1483 1531 1483 1483 1483 1483 1483 1483 1483 1483 1483 1483 1527 1518 1535 1527 1483
    1483 1483;
    1551 1551 1551 1551 1551 1551 1551 1551 1551 1551 1551 1551 1551 1551 1551 1551 1551 1551 1551 1598
    1551 1551;
    1551 1551 1551 1551 1551 1551 1551 1551 1551 1551 1551 1551 1551 1551 1551 1551 1551 1551 1551 1594
    1551 1551;
    1551 1551 1551 1551 1551 1551 1551 1551 1551 1551 1590 1551 1551 1551 1551 1551 1551 1551 1551 1595
    1551 1551;
    1551 1551 1551 1551 1551 1551 1551 1551 1551 1586 1591 1551 1551 1551 1551 1551 1551 1551 1551 1595
    1551 1551;
    2167 2268 2268 2167 2167 2167 2167 2167 2167 2167 2167 2292 2276 2167 2167 2167 2167 2167 2167 2167
    2167 2167;
    2167 2299 2299 2167 2167 2167 2167 2167 2167 2167 2167 2292 2307 2167 2167 2167 2167 2167 2167 2167
    2167 2167;
    2175 2212 2212 2175 2175 2175 2175 2175 2175 2175 2175 2236 2220 2175 2175 2175 2175 2175 2175 2175
    2175 2175;
    2175 2243 2243 2175 2175 2175 2175 2175 2175 2175 2175 2236 2251 2175 2175 2175 2175 2175 2175 2175
    2175 2175;
    2175 2243 2243 2175 2175 2175 2175 2175 2175 2175 2175 2236 2220 2175 2175 2175 2175 2175 2175 2175
    2175 2175;
    2175 2243 2216 2175 2175 2175 2175 2175 2175 2175 2175 2236 2220 2175 2175 2175 2175 2175 2175 2175
    2175 2175;
    2167 2299 2299 2167 2167 2167 2167 2167 2167 2167 2167 2292 2276 2167 2167 2167 2167 2167 2167 2167
    2167 2167;
    2167 2299 2272 2167 2167 2167 2167 2167 2167 2167 2167 2292 2276 2167 2167 2167 2167 2167 2167 2167
    2167 2167;
};

/// The byte sets of the fast code.
pub static FAST_BYTE_SETS: [u8; 14592] = byte_sets! {
    0 38 0 0 1 0 0 0 0 0 0 0 0 0 0 0; 0 2 0 0 1 0 0 0 0 0 0 0 0 0 0 0; 0 36 0 0 0 0 0 0 0 0 0 0 0 0 0 0;
    0 0 0 0 0 128 0 0 0 0 0 0 0 0 0 0; 0 0 0 0 0 128 0 0 0 0 0 0 0 0 0 0;
    0 0 0 0 0 128 0 0 254 255 255 135 254 255 255 7; 0 0 0 0 0 0 0 0 254 255 255 135 254 255 255 7;
    0 0 0 0 18 0 0 0 1 0 0 128 0 0 0 0; 0 0 0 0 16 0 0 0 1 0 0 128 0 0 0 0;
    0 0 0 0 0 0 0 0 1 0 0 128 0 0 0 0; 0 0 0 0 0 0 0 0 0 0 0 128 0 0 0 0;
    0 0 0 0 0 0 0 0 1 0 0 0 0 0 0 0; 0 0 0 0 16 0 0 0 0 0 0 0 0 0 0 0; 0 0 0 0 2 0 0 0 0 0 0 0 0 0 0 0;
    0 0 0 0 0 0 255 3 254 255 255 135 254 255 255 7; 0 0 0 0 0 0 0 0 0 0 0 0 0 0 0 16;
    0 0 0 0 0 0 0 0 0 0 0 0 0 0 0 80; 0 0 0 0 0 0 0 0 0 0 0 0 0 0 0 64; 0 0 0 0 8 0 0 0 0 0 0 0 0 0 0 0;
    0 0 0 0 66 0 0 0 0 0 0 0 0 0 0 0; 0 0 0 0 64 0 0 0 0 0 0 0 0 0 0 0; 0 0 0 0 0 1 0 0 0 0 0 0 0 0 0 0;
    0 0 0 0 4 0 0 0 254 255 255 199 254 255 255 7; 0 0 0 0 4 0 0 0 254 255 255 135 254 255 255 7;
    0 0 0 0 0 0 0 0 254 255 255 135 254 255 255 7; 0 0 0 0 0 0 0 0 0 0 1 0 0 0 0 0;
    0 0 0 0 0 0 0 0 0 0 1 0 0 0 0 0; 0 0 0 0 0 0 0 0 0 0 1 0 0 0 0 0; 0 0 0 0 4 0 0 0 0 0 0 0 0 0 0 0;
    0 0 0 0 0 0 0 0 0 0 0 64 0 0 0 0; 0 0 0 0 0 12 0 128 0 0 0 0 0 0 0 8;
    0 0 0 0 0 12 0 128 0 0 0 0 0 0 0 8; 0 0 0 0 0 12 0 128 0 0 0 0 0 0 0 8;
    0 0 0 0 0 12 0 128 0 0 0 0 0 0 0 8; 0 0 0 0 0 12 0 128 0 0 0 0 0 0 0 0;
    0 0 0 0 0 4 0 128 0 0 0 0 0 0 0 0; 0 0 0 0 0 0 0 128 0 0 0 0 0 0 0 0;
    0 0 0 0 0 4 0 0 0 0 0 0 0 0 0 0; 0 0 0 0 0 8 0 0 0 0 0 0 0 0 0 0; 0 0 0 0 0 0 0 0 0 0 0 0 0 0 0 8;
    0 0 0 0 0 0 255 3 0 0 0 0 0 0 0 0; 0 0 0 0 0 0 1 0 0 0 0 0 0 0 0 0;
    0 0 0 0 0 0 254 3 0 0 0 0 0 0 0 0; 0 0 0 0 0 32 255 3 0 0 0 0 0 0 0 0;
    0 0 0 0 0 0 0 0 254 255 255 7 254 255 255 7; 0 0 0 0 0 0 255 3 254 255 255 7 254 255 255 7;
    255 255 255 255 251 255 255 255 255 255 255 239 255 255 255 255; 0 0 0 0 0 0 0 0 0 0 0 16 0 0 0 0;
    255 255 255 255 127 255 255 255 255 255 255 239 255 255 255 255;
    0 0 0 0 132 0 1 0 0 0 0 16 0 64 20 1; 0 0 0 0 132 0 1 0 0 0 0 16 0 64 20 0;
    0 0 0 0 0 0 0 0 0 0 0 0 0 0 0 1; 0 0 0 0 0 0 255 3 126 0 0 0 126 0 0 0;
    0 0 0 0 0 0 0 0 0 0 0 0 0 0 0 32; 0 0 0 0 2 128 0 0 0 0 0 0 0 0 0 0;
    255 255 255 255 255 255 255 255 255 255 255 255 255 255 255 255;
    255 219 255 255 255 255 255 255 255 255 255 255 255 255 255 255;
};

/// Where the ranges of each begin.
pub static FAST_SET_PLACES: [[u8; 4]; 58] = words! {
    0 4 6 8 10 11 15 18 22 25 27 28 29 30 31 35 36 38 39 40 42 43 44 52 59 65 68 70 71 72 73 80 86 91 95
    98 100 101 102 103 104 105 106 107 109 111 114 117 118 121 129 136 137 140 141 143 144 147
};

/// The ranges of each.
pub static FAST_RANGES: [[u8; 8]; 147] = ranges! {
    (32 32) (9 9) (10 10) (13 13); (32 32) (9 9); (10 10) (13 13); (47 47) (47 47); (47 47);
    (95 95) (97 122) (65 90) (47 47); (95 95) (97 122) (65 90); (95 95) (64 64) (36 36) (33 33);
    (95 95) (64 64) (36 36); (95 95) (64 64); (95 95); (64 64); (36 36); (33 33);
    (95 95) (97 122) (65 90) (48 57); (124 124); (126 126) (124 124); (126 126); (35 35);
    (38 38) (33 33); (38 38); (40 40); (80 80) (80 80) (80 80) (95 95) (97 122) (65 90) (34 34) (94 94);
    (80 80) (80 80) (80 80) (95 95) (97 122) (65 90) (34 34);
    (80 80) (80 80) (80 80) (95 95) (97 122) (65 90); (80 80) (80 80) (80 80); (80 80) (80 80); (80 80);
    (34 34); (94 94); (63 63) (42 42) (43 43) (123 123) (123 123) (123 123) (123 123);
    (63 63) (42 42) (43 43) (123 123) (123 123) (123 123); (63 63) (42 42) (43 43) (123 123) (123 123);
    (63 63) (42 42) (43 43) (123 123); (63 63) (42 42) (43 43); (63 63) (42 42); (63 63); (42 42);
    (43 43); (123 123); (48 57); (48 48); (49 57); (48 57) (45 45); (97 122) (65 90);
    (97 122) (65 90) (48 57); (0 33) (35 91) (93 1114111); (92 92); (0 38) (40 91) (93 1114111);
    (34 34) (92 92) (114 114) (110 110) (116 116) (48 48) (39 39) (120 120);
    (34 34) (92 92) (114 114) (110 110) (116 116) (48 48) (39 39); (120 120); (48 57) (97 102) (65 70);
    (125 125); (47 47) (33 33); (0 1114111); (0 9) (11 12) (14 1114111);
};

/// No ranges are searched by halves.
pub static FAST_ORDERS: [u8; 57] = [0; 57];

/// Where each text of both codes begins.
pub static TEXT_PLACES: [[u8; 4]; 38] = words! {
    0 1 2 3 4 5 6 7 8 9 10 11 12 13 14 15 16 17 18 19 20 24 36 40 41 42 43 44 45 46 48 49 51 53 55 57 60
    63
};

/// The texts.
pub static TEXT_BYTES: &[u8; 63] =
    b"={}()[]_@$!#&~|?*+-,PUSHPUSH_LITERALPEEK^\\xu\"'..\n\r\n///**///!///";
