// Constructs of C that this profile leaves out.

/// The constructs that are refused by name. The last four are found by their types, the others at a
/// token; a function pointer and a flexible array may be found by either.
#[derive(Clone, Copy, Debug, PartialEq, Eq)]
pub enum Construct {
    /// `float`, `double`.
    Floating,
    /// `union u { int a; };`
    Union,
    /// `_Bool b;`
    Bool,
    /// `inline`, `_Noreturn`.
    Inline,
    /// `_Thread_local int a;`
    ThreadLocal,
    /// `_Generic(a, int: 1)`
    Generic,
    /// `_Static_assert(1, "");`
    StaticAssert,
    /// `volatile`, `restrict`, `_Atomic`.
    Qualifier,
    /// `_Alignas`, `_Alignof`.
    AlignmentWord,
    /// `_Complex`, `_Imaginary`.
    Complex,
    /// `struct s { int a : 3; };`, at the colon.
    BitField,
    /// `int f(int a, ...);`, at the dots.
    Variadic,
    /// `int a[2] = { [1] = 2 };`, at the bracket.
    Designator,
    /// `(int){ 1 }`, at the brace.
    CompoundLiteral,
    /// `typedef` inside a block.
    InnerTypedef,
    /// A typedef name behind a type word, or where a declarator declares a name: `int T;`.
    TypedefAgain,
    /// `int (*f)(void);`, `a[0]()`, at the second parenthesis that opens.
    FunctionPointer,
    /// `int f(a) int a; { .. }`, at the first parameter that is no typedef name.
    OldParameters,
    /// A `case` or `default` that is no item of the block of a `switch`.
    NestedCase,
    /// `struct s { int a[]; };`, at the bracket that closes.
    FlexibleArray,
    /// `void f(struct s a);`, `struct s f(void);`
    StructByValue,
    /// `struct s { const int a; };`
    ConstMember,
    /// `(long)p`, where no conversion of this profile allows the cast.
    PointerInteger,
    /// `void main(int a)`.
    MainShape,
}
