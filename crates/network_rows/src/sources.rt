//! The modules, each with a function with blocks first.

/// A branch with an expression in one arm and behind both.
pub fn arm<'a>() -> &'a [u8] {
    b"
define i32 @main() {
entry:
  %a = alloca i32
  %b = alloca i32
  %s = alloca i32
  %g = call i32 @getchar()
  store i32 %g, ptr %a
  %h = call i32 @getchar()
  store i32 %h, ptr %b
  %g1 = load i32, ptr %a
  %c = icmp eq i32 %g1, 65
  br i1 %c, label %left, label %right
left:
  %x1 = load i32, ptr %a
  %x2 = load i32, ptr %b
  %x = add i32 %x1, %x2
  store i32 %x, ptr %s
  br label %join
right:
  br label %join
join:
  %y1 = load i32, ptr %a
  %y2 = load i32, ptr %b
  %y = add i32 %y1, %y2
  ret i32 %y
}

declare i32 @getchar()
"
}

/// An expression in both arms.
pub fn both<'a>() -> &'a [u8] {
    b"
define i32 @main() {
entry:
  %a = alloca i32
  %g = call i32 @getchar()
  store i32 %g, ptr %a
  %g1 = load i32, ptr %a
  %c = icmp slt i32 %g1, 0
  br i1 %c, label %cold, label %warm
cold:
  %a2 = load i32, ptr %a
  %y = add i32 %a2, 1
  ret i32 %y
warm:
  %a3 = load i32, ptr %a
  %z = add i32 %a3, 1
  ret i32 %z
}

declare i32 @getchar()
"
}

/// An expression before and behind a store, in one block.
pub fn again<'a>() -> &'a [u8] {
    b"
define i32 @main() {
  %a = alloca i32
  %a1 = load i32, ptr %a
  %x = add i32 %a1, 1
  store i32 %x, ptr %a
  %a2 = load i32, ptr %a
  %y = add i32 %a2, 1
  %a3 = load i32, ptr %a
  %z = add i32 %a3, 1
  ret i32 %z
}
"
}
